//! Runs the rows of rows/ over the libraries: each through every way that serves. Prints the tests that differ, and how
//! many each file has; the exit status is 1 where one differs.
#![tactic(auto)]

mod algorithms;
mod buckets;
mod choices;
mod claims;
mod detached;
mod digests;
mod elsewhere;
mod expected;
mod fields;
mod further;
mod further_messages;
mod headers;
mod heads;
mod items;
mod keys;
mod macs;
mod made;
mod messages;
mod okp_keys;
mod requirements;
mod sets;
mod setting;
mod shapes;
mod signed;
mod streams;
mod structures;
mod tokens;
mod values;

use fields::{Difference, array};
use serde_json::Value;
use std::alloc::Global;
use std::io::{Error, ErrorKind};
use std::process::ExitCode;
use std::rt::Files;
use std::{fs, io};

/// What the rows of a file are about.
#[derive(Clone, Copy)]
enum Subject {
    /// Items, and the buckets that they make.
    Items,
    /// Keys, and their choice.
    Keys,
    /// Messages, and what they are computed of.
    Messages,
    /// Tokens, and their claims.
    Tokens,
}

/// Each subject.
const SUBJECTS: [Subject; 4] = [
    Subject::Items,
    Subject::Keys,
    Subject::Messages,
    Subject::Tokens,
];

impl Subject {
    /// The files, by their schema: those of rows/ but `commands`, which is for the program.
    fn schemas(self) -> &'static [&'static str] {
        match self {
            Subject::Items => ITEMS,
            Subject::Keys => KEYS,
            Subject::Messages => MESSAGES,
            Subject::Tokens => TOKENS,
        }
    }
}

/// The files about items.
const ITEMS: &[&str] = &[
    "algorithms",
    "further",
    "heads",
    "items",
    "values",
    "buckets",
    "headers",
];

/// The files about keys.
const KEYS: &[&str] = &["keys", "sets", "choices", "okp_keys", "further_choices"];

/// The files about messages.
const MESSAGES: &[&str] = &[
    "further_messages",
    "macs",
    "digests",
    "structures",
    "messages",
    "detached",
    "shapes",
    "made",
    "signed",
];

/// The files about tokens.
const TOKENS: &[&str] = &["claims", "tokens", "requirements"];

/// How many tests were run, and how many of them differ.
#[derive(Clone, Copy)]
struct Count {
    tests: u64,
    differ: u64,
}

/// Runs a test about items.
fn run_items(alloc: Global, schema: &str, group: &Value, test: &Value) -> Result<(), Difference> {
    match schema {
        "algorithms" => algorithms::run_test(test),
        "further" => further::run_test(test),
        "heads" => heads::run_test(alloc, test),
        "items" => items::run_test(alloc, test),
        "values" => values::run_test(alloc, group, test),
        "buckets" => buckets::run_test(alloc, group, test),
        "headers" => headers::run_test(alloc, group, test),
        _ => Err(Difference::Setting),
    }
}

/// Runs a test about keys.
fn run_keys(alloc: Global, schema: &str, group: &Value, test: &Value) -> Result<(), Difference> {
    match schema {
        "keys" => keys::run_test(alloc, group, test),
        "sets" => sets::run_test(alloc, group, test),
        "choices" => choices::run_test(alloc, group, test),
        "okp_keys" => okp_keys::run_test(alloc, group, test),
        "further_choices" => okp_keys::run_choice(alloc, group, test),
        _ => Err(Difference::Setting),
    }
}

/// Runs a test about messages.
fn run_messages(
    alloc: Global,
    schema: &str,
    group: &Value,
    test: &Value,
) -> Result<(), Difference> {
    match schema {
        "further_messages" => further_messages::run_test(alloc, group, test),
        "macs" => macs::run_test(alloc, group, test),
        "digests" => digests::run_test(alloc, group, test),
        "structures" => structures::run_test(alloc, test),
        "messages" => messages::run_test(alloc, group, test),
        "detached" => detached::run_test(alloc, group, test),
        "shapes" => shapes::run_test(alloc, group, test),
        "made" => made::run_test(alloc, group, test),
        "signed" => signed::run_test(alloc, test),
        _ => Err(Difference::Setting),
    }
}

/// Runs a test about tokens.
fn run_tokens(alloc: Global, schema: &str, group: &Value, test: &Value) -> Result<(), Difference> {
    match schema {
        "claims" => claims::run_test(alloc, group, test),
        "tokens" => tokens::run_test(alloc, group, test),
        "requirements" => requirements::run_test(alloc, group, test),
        _ => Err(Difference::Setting),
    }
}

/// A file of rows.
#[derive(Clone, Copy)]
struct File {
    subject: Subject,
    schema: &'static str,
}

impl File {
    /// Runs a test.
    fn run_test(self, alloc: Global, group: &Value, test: &Value) -> Result<(), Difference> {
        match self.subject {
            Subject::Items => run_items(alloc, self.schema, group, test),
            Subject::Keys => run_keys(alloc, self.schema, group, test),
            Subject::Messages => run_messages(alloc, self.schema, group, test),
            Subject::Tokens => run_tokens(alloc, self.schema, group, test),
        }
    }
}

/// Prints how a test differs.
fn print(rt: &impl Print, schema: &str, test: u64, difference: Difference) -> io::Result<()> {
    let how = difference.name();
    println!(rt; "{schema} {test}: {how}")
}

/// Runs the tests of a group, prints those that differ, and counts both.
fn run_group(
    rt: &(impl Print + AllocGlobal),
    file: File,
    group: &Value,
    count: &mut Count,
) -> io::Result<()> {
    for test in array(group, "tests") {
        count.tests = count.tests.saturating_add(1);
        if let Err(difference) = file.run_test(rt.alloc(), group, test) {
            count.differ = count.differ.saturating_add(1);
            print(rt, file.schema, count.tests, difference)?;
        }
    }
    Ok(())
}

/// The error of a file that isn't one of rows.
fn malformed() -> Error {
    Error::from(ErrorKind::InvalidData)
}

/// The bytes of the file of a schema.
fn read(rt: &(impl Files + AllocGlobal), schema: &str) -> io::Result<Vec<u8>> {
    let name = format!(in rt.alloc(); "{schema}.json")?;
    fs::read(rt, name.as_str())
}

/// The rows that bytes are.
fn parsed(alloc: Global, text: &[u8]) -> io::Result<Value> {
    match Value::from_slice(alloc, text) {
        Ok(rows) => Ok(rows),
        Err(_) => Err(malformed()),
    }
}

/// The rows of a schema.
fn rows_of(rt: &(impl Files + AllocGlobal), schema: &str) -> io::Result<Value> {
    let text = read(rt, schema)?;
    parsed(rt.alloc(), text.as_slice())
}

/// Runs these groups of a file, and counts their tests.
fn run_groups(rt: &(impl Print + AllocGlobal), file: File, groups: &[Value]) -> io::Result<Count> {
    let mut count = Count {
        tests: 0,
        differ: 0,
    };
    for group in groups {
        run_group(rt, file, group, &mut count)?;
    }
    Ok(count)
}

/// Prints how many tests a file has, and how many of them differ.
fn print_count(rt: &impl Print, schema: &str, count: Count) -> io::Result<()> {
    println!(rt; "{schema}: {} tests, {} differ", count.tests, count.differ)
}

/// Runs the rows of a file, prints how many tests it has, and returns how many of them differ.
fn run_rows(rt: &(impl Print + AllocGlobal), file: File, rows: &Value) -> io::Result<u64> {
    let count = run_groups(rt, file, array(rows, "testGroups"))?;
    print_count(rt, file.schema, count)?;
    Ok(count.differ)
}

/// Runs a file, and returns how many of its tests differ.
fn run_file(rt: &(impl Print + Files + AllocGlobal), file: File) -> io::Result<u64> {
    let rows = rows_of(rt, file.schema)?;
    run_rows(rt, file, &rows)
}

/// Runs the files about a subject, and returns how many tests differ.
fn run_subject(rt: &(impl Print + Files + AllocGlobal), subject: Subject) -> io::Result<u64> {
    let mut differ = 0u64;
    for schema in subject.schemas() {
        let file = File { subject, schema };
        differ = differ.saturating_add(run_file(rt, file)?);
    }
    Ok(differ)
}

/// Runs all files, and returns how many tests differ.
fn run_all(rt: &(impl Print + Files + AllocGlobal)) -> io::Result<u64> {
    let mut differ = 0u64;
    for subject in SUBJECTS {
        differ = differ.saturating_add(run_subject(rt, subject)?);
    }
    Ok(differ)
}

fn main(rt: HostRuntime) -> io::Result<ExitCode> {
    match run_all(&rt) {
        Ok(0) => Ok(ExitCode::SUCCESS),
        Ok(_) => Ok(ExitCode::from(1)),
        Err(error) => Err(error),
    }
}
