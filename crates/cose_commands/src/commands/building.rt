//! What clap gets of the tables of commands. Where a `Command` is held, the arms of a match return, in place of `?`: a check is much
//! quicker so.

use crate::commands::{CommandOption, Number, OneOf, Presence, Subcommand, Value};
use clap::{Arg, ArgAction, ArgGroup, Command, value_parser};
use std::alloc::{AllocError, Global};

/// A payload has fewer bytes.
const PAYLOAD: i64 = 1 << 56;

impl Number {
    /// The option, whose argument is such a number.
    fn limits<'a>(self, arg: Arg<'a>) -> Arg<'a> {
        match self {
            Number::Time => arg.value_parser(value_parser!(i64).range(0..)),
            Number::Seconds => arg.value_parser(value_parser!(u32)),
            Number::Count => arg.value_parser(value_parser!(u64)),
            Number::Mac => arg.value_parser(value_parser!(u8).range(4..=7)),
            Number::Length => arg.value_parser(value_parser!(u64).range(0..PAYLOAD)),
        }
    }
}

impl Value {
    /// The option, which takes such an argument.
    fn limits<'a>(self, arg: Arg<'a>) -> Arg<'a> {
        match self {
            Value::Text | Value::Flag => arg,
            Value::Label => arg.action(ArgAction::Append),
            Value::Named(names) => arg.value_parser(names),
            Value::NamedOften(names) => arg.value_parser(names).action(ArgAction::Append),
            Value::Number(number) => number.limits(arg),
        }
    }

    /// The option, which takes such an argument, with this name in help.
    fn named<'a>(self, arg: Arg<'a>, name: &'static str) -> Arg<'a> {
        if let Value::Flag = self {
            return arg.action(ArgAction::SetTrue);
        }
        self.limits(arg.value_name(name))
    }
}

impl Presence {
    /// The option, which has to be there as this says.
    fn limits<'a>(self, arg: Arg<'a>) -> Result<Arg<'a>, AllocError> {
        match self {
            Presence::Optional => Ok(arg),
            Presence::Required => Ok(arg.required(true)),
            Presence::Default(argument) => Ok(arg.default_value(argument)),
            Presence::Without(others) => arg.conflicts_with_all(others),
            Presence::WithAndWithout(needed, other) => {
                arg.requires_arg(needed)?.conflicts_with(other)
            }
        }
    }
}

impl CommandOption {
    /// The option as clap takes it.
    fn arg<'a>(self, alloc: Global) -> Result<Arg<'a>, AllocError> {
        let arg = Arg::new(alloc, self.name).long(self.name).help(self.help);
        self.presence.limits(self.value.named(arg, self.argument))
    }

    /// A command with this option too.
    fn add<'a>(self, alloc: Global, command: Command<'a>) -> Result<Command<'a>, AllocError> {
        match self.arg(alloc) {
            Ok(arg) => return command.arg(arg),
            Err(error) => return Err(error),
        }
    }
}

impl OneOf {
    /// The two options as clap takes them.
    fn group<'a>(self, alloc: Global) -> Result<ArgGroup<'a>, AllocError> {
        ArgGroup::new(alloc, self.name)
            .required(true)
            .arg(self.option)?
            .arg(self.other)
    }

    /// A command with this choice too.
    fn add<'a>(self, alloc: Global, command: Command<'a>) -> Result<Command<'a>, AllocError> {
        match self.group(alloc) {
            Ok(group) => return command.group(group),
            Err(error) => return Err(error),
        }
    }
}

/// A command with these options too.
fn with_options<'a>(
    alloc: Global,
    command: Command<'a>,
    options: &[CommandOption],
) -> Result<Command<'a>, AllocError> {
    let mut command = command;
    for option in options {
        match option.add(alloc, command) {
            Ok(more) => command = more,
            Err(error) => return Err(error),
        }
    }
    Ok(command)
}

impl Subcommand {
    /// The command as clap takes it, before its options.
    fn head<'a>(&self, alloc: Global) -> Command<'a> {
        Command::new(alloc, self.name)
            .about(self.about)
            .after_help(self.notes)
    }

    /// The command as clap takes it, with its options.
    fn with_all_options<'a>(&self, alloc: Global) -> Result<Command<'a>, AllocError> {
        match with_options(alloc, self.head(alloc), self.checks) {
            Ok(command) => return with_options(alloc, command, self.options),
            Err(error) => return Err(error),
        }
    }

    /// The command as clap takes it.
    fn command<'a>(&self, alloc: Global) -> Result<Command<'a>, AllocError> {
        let command = self.with_all_options(alloc)?;
        match self.one_of {
            Some(one_of) => return one_of.add(alloc, command),
            None => return Ok(command),
        }
    }

    /// A line with this command too.
    fn add<'a>(&self, alloc: Global, line: Command<'a>) -> Result<Command<'a>, AllocError> {
        match self.command(alloc) {
            Ok(command) => return line.subcommand(command),
            Err(error) => return Err(error),
        }
    }
}

/// A line with these commands too.
pub fn with_commands<'a>(
    alloc: Global,
    line: Command<'a>,
    subcommands: &[Subcommand],
) -> Result<Command<'a>, AllocError> {
    let mut line = line;
    for subcommand in subcommands {
        match subcommand.add(alloc, line) {
            Ok(more) => line = more,
            Err(error) => return Err(error),
        }
    }
    Ok(line)
}
