//! The commands of the program and their options, as tables.

mod building;

use building::with_commands;
use clap::Command;
use std::alloc::{AllocError, Global};

/// The version of the program, which `--version` prints.
const VERSION: &str = "0.2.0";

/// What help says below the commands.
const NOTES: &str =
    "HMAC is computed here; for ECDSA (ES256, ES384, ES512, ESP256, ESP384, ESP512) the digest is computed, and --vouch \
decides: without it no signature is good, and cosecmd-sign1 has openssl decide. No curve arithmetic is included.
Arguments in hexadecimal have an even number of digits, no prefix and no spaces.
Exit status: 0 accepted, shown, printed or made, 1 refused, 2 no answer; the help of each command has its own, and an example.";

/// What help says below the options of `verify`.
const VERIFY_NOTES: &str =
    "HMAC is computed here; for ECDSA (ES256, ES384, ES512, ESP256, ESP384, ESP512) the digest is computed, and --vouch \
decides: without it no signature is good, and cosecmd-sign1 has openssl decide. No curve arithmetic is included.
Arguments in hexadecimal have an even number of digits, no prefix and no spaces.
Exit status: 0 authentic, 1 refused, 2 no verdict (command line, keys, memory, input or output).
Example: cosecmd verify --keys-file keys < message";

/// What help says below the options of `make`.
const MAKE_NOTES: &str =
    "Arguments in hexadecimal have an even number of digits, no prefix and no spaces.
The message has its tag, 17, and its shortest spelling. It is written while the payload is read.
Exit status: 0 made, 2 not or not whole (command line, key, memory, input or output): drop what was written.
Example: cosecmd make --alg 5 --key-file key --length $(stat -c %s payload) < payload > message";

/// What help says below the options of `digest`.
const DIGEST_NOTES: &str =
    "For ECDSA (ES256, ES384, ES512, ESP256, ESP384, ESP512) the digest is computed here; no curve arithmetic is included.
Arguments in hexadecimal have an even number of digits, no prefix and no spaces.
It prints the argument of `verify --vouch`: the curve of the key in one byte, the digest of the structure that is signed, \
the signature, x and y. The signature isn't verified yet: pass this argument to `verify` only where another program has \
verified it.
Exit status: 0 printed, 1 refused, 2 no answer (command line, keys, memory, input or output).
Example: cosecmd digest --keys-file keys < message";

/// What help says below the options of `keys`.
const KEYS_NOTES: &str =
    "Arguments in hexadecimal have an even number of digits, no prefix and no spaces.
It prints for each item of the set its place, and its kty, crv, kid (in hexadecimal), alg and key_ops and `usable`, or \
why it is refused; and last how many are usable. No byte of a secret is printed. With --for-message `usable` is followed by \
`fits`, or by `fails` and the first of algorithm, type, curve, key_ops and kid that the key fails.
Exit status: 0 listed, 1 listed, and too many usable keys for other commands, or the message is refused, 2 no answer (command \
line, keys, memory, input or output).
Example: cosecmd keys --keys-file keys";

/// What help says below the options of `show`.
const SHOW_NOTES: &str =
    "It prints the shape of the message, and a line for each pair of the protected and of the unprotected header, \
in the order of the message: the bytes of the label and of the value in hexadecimal. Nothing of it is authenticated.
Exit status: 0 shown, 1 refused, 2 no answer (command line, memory, input or output).
Example: cosecmd show --diagnostic < message";

/// What help says below the options of `cwt`.
const CWT_NOTES: &str =
    "HMAC is computed here; for ECDSA (ES256, ES384, ES512, ESP256, ESP384, ESP512) the digest is computed, and --vouch \
decides: without it no signature is good, and cosecmd-sign1 has openssl decide. No curve arithmetic is included.
Arguments in hexadecimal have an even number of digits, no prefix and no spaces.
It prints `admitted`, and then a line for each registered claim and for each text of the audience: texts and bytes in \
hexadecimal, dates in seconds since 1970; of a confirmation the key (curve, x, y) and its identifier.
Exit status: 0 admitted, 1 refused, 2 no answer (command line, keys, memory, input or output).
Example: cosecmd cwt --keys-file keys --now $(date +%s) < token";

/// The values of `--kind`, the kinds of messages that are wanted.
const KINDS: &[&str] = &["mac0", "sign1", "tagged"];

/// The values of `--require`, the registered claims (RFC 8392 section 3.1).
const CLAIMS: &[&str] = &["iss", "sub", "aud", "exp", "nbf", "iat", "cti"];

/// The values of `--claims`.
const SHOWN: &[&str] = &["all"];

/// The values of `--input`.
const FORMS: &[&str] = &["cbor", "hex", "base64url", "auto"];

/// The values of `--limits`.
const LIMITS_NAMED: &[&str] = &["small", "large"];

/// What the argument of an option is.
#[derive(Clone, Copy)]
enum Value {
    /// A text, or bytes in hexadecimal, which are read later.
    Text,
    /// A label, which is read later. The option may be there several times.
    Label,
    /// One of these names.
    Named(&'static [&'static str]),
    /// One of these names. The option may be there several times.
    NamedOften(&'static [&'static str]),
    /// A number.
    Number(Number),
    /// It has none.
    Flag,
}

/// A number that is the argument of an option.
#[derive(Clone, Copy)]
enum Number {
    /// A time, in seconds since 1970.
    Time,
    /// A number of seconds.
    Seconds,
    /// A number of bytes, or of seconds that may be as great as dates are.
    Count,
    /// The number of an HMAC algorithm (RFC 9053 section 3.1).
    Mac,
    /// The number of bytes of a payload.
    Length,
}

/// Whether an option has to be there.
#[derive(Clone, Copy)]
enum Presence {
    /// It may be left out.
    Optional,
    /// It has to be there.
    Required,
    /// Where it is left out, its argument is this one.
    Default(&'static str),
    /// It may be left out, and has to be where an option of these names is there.
    Without(&'static [&'static str]),
    /// It may be left out. Where it is there, so is the option of the first name, and that of the second isn't.
    WithAndWithout(&'static str, &'static str),
}

/// An option, which has one argument, or none.
#[derive(Clone, Copy)]
struct CommandOption {
    /// Its name, without its dashes.
    name: &'static str,
    /// What help calls its argument.
    argument: &'static str,
    /// What its argument is.
    value: Value,
    /// Whether it has to be there.
    presence: Presence,
    /// What help says of it.
    help: &'static str,
}

/// Two options of which one has to be there, and not both.
#[derive(Clone, Copy)]
struct OneOf {
    /// What clap calls the two.
    name: &'static str,
    /// The name of the first.
    option: &'static str,
    /// The name of the other.
    other: &'static str,
}

/// A command.
#[derive(Clone, Copy)]
struct Subcommand {
    /// Its name.
    name: &'static str,
    /// What help says of it.
    about: &'static str,
    /// What help says below its options.
    notes: &'static str,
    /// The first of its options, in the order in which help lists them: what a message is verified under.
    checks: &'static [CommandOption],
    /// Its other options, in that order.
    options: &'static [CommandOption],
    /// Its options of which one has to be there.
    one_of: Option<OneOf>,
}

/// The key set.
const KEYS: CommandOption = CommandOption {
    name: "keys",
    argument: "HEX",
    value: Value::Text,
    presence: Presence::Optional,
    help: "The key set (RFC 9052 section 7)",
};

/// The key set's file.
const KEYS_FILE: CommandOption = CommandOption {
    name: "keys-file",
    argument: "PATH",
    value: Value::Text,
    presence: Presence::Optional,
    help: "The file that has the bytes of the key set, in place of --keys",
};

/// The algorithms that are allowed.
const ALGS: CommandOption = CommandOption {
    name: "algs",
    argument: "LIST",
    value: Value::Text,
    presence: Presence::Optional,
    help: "The algorithms that are allowed, by number, as in `--algs=5,-7`: a key is used only where its own alg is one of them",
};

/// The fewest bytes of a secret.
const LEAST_SECRET: CommandOption = CommandOption {
    name: "least-secret",
    argument: "N",
    value: Value::Number(Number::Count),
    presence: Presence::Optional,
    help: "The fewest bytes of a symmetric key: none that is shorter is used",
};

/// The externally supplied data.
const AAD: CommandOption = CommandOption {
    name: "aad",
    argument: "HEX",
    value: Value::Text,
    presence: Presence::Optional,
    help: "The externally supplied data (RFC 9052 section 4.3), at most 65,535 bytes",
};

/// The kind of message.
const KIND: CommandOption = CommandOption {
    name: "kind",
    argument: "KIND",
    value: Value::Named(KINDS),
    presence: Presence::Default("tagged"),
    help: "The kind of message; with `tagged` either kind, as its tag says",
};

/// A message that keys are listed for.
const FOR_MESSAGE: CommandOption = CommandOption {
    name: "for-message",
    argument: "",
    value: Value::Flag,
    presence: Presence::Optional,
    help: "Say of each usable key whether it fits the COSE message on standard input, of which the headers alone are read",
};

/// Diagnostic notation.
const DIAGNOSTIC: CommandOption = CommandOption {
    name: "diagnostic",
    argument: "",
    value: Value::Flag,
    presence: Presence::Optional,
    help: "Print each pair in diagnostic notation too (RFC 8949 section 8), after its bytes",
};

/// Messages whose payload is elsewhere.
const WITHOUT_PAYLOAD: CommandOption = CommandOption {
    name: "detached",
    argument: "",
    value: Value::Flag,
    presence: Presence::Optional,
    help: "Show the headers also of a message whose payload is elsewhere (detached)",
};

/// The payload of a message that is shown.
const WITH_PAYLOAD: CommandOption = CommandOption {
    name: "with-payload",
    argument: "",
    value: Value::Flag,
    presence: Presence::Optional,
    help: "Print the payload too, in diagnostic notation where it is one item of CBOR",
};

/// How standard input is written.
const INPUT: CommandOption = CommandOption {
    name: "input",
    argument: "FORM",
    value: Value::Named(FORMS),
    presence: Presence::Optional,
    help: "How standard input is written: `cbor`, as without this option, `hex` or `base64url` (RFC 4648), or `auto`, which tells by the first bytes; blanks in a text are skipped",
};

/// The limits.
const LIMITS: CommandOption = CommandOption {
    name: "limits",
    argument: "LIMITS",
    value: Value::Named(LIMITS_NAMED),
    presence: Presence::Optional,
    help: "How much room there is: `small`, as without this option, or `large` (headers of 65,535 bytes nested 16 deep, 256 keys, claims of 65,535 bytes)",
};

/// The signature that is good.
const VOUCH: CommandOption = CommandOption {
    name: "vouch",
    argument: "HEX",
    value: Value::Text,
    presence: Presence::Optional,
    help: "The one signature that is good: curve, digest, signature, x and y, as `digest` prints them; without it none is good",
};

/// The detached payload.
const DETACHED: CommandOption = CommandOption {
    name: "payload",
    argument: "HEX",
    value: Value::Text,
    presence: Presence::Optional,
    help: "The payload of a message that has nil in its place (detached: RFC 9052 sections 4.2 and 6.2)",
};

/// The detached payload's file.
const PAYLOAD_FILE: CommandOption = CommandOption {
    name: "payload-file",
    argument: "PATH",
    value: Value::Text,
    presence: Presence::Without(&["payload"]),
    help: "The file or block device that has the bytes of the payload, in place of --payload; it is read while the message is verified",
};

/// The number of bytes of the detached payload that are read of its file.
const PAYLOAD_LENGTH: CommandOption = CommandOption {
    name: "payload-length",
    argument: "N",
    value: Value::Number(Number::Length),
    presence: Presence::WithAndWithout("payload-file", "payload"),
    help: "The number of bytes of the payload, below 2^56: the first of --payload-file, which may be a pipe then",
};

/// The new file of the payload.
const PAYLOAD_TO: CommandOption = CommandOption {
    name: "payload-to",
    argument: "PATH",
    value: Value::Text,
    presence: Presence::Without(&["payload", "payload-file"]),
    help: "The new file, mode 0600, that gets the payload of an authentic message; a name that exists is a fault",
};

/// A header parameter that is printed.
const HEADER: CommandOption = CommandOption {
    name: "header",
    argument: "LABEL",
    value: Value::Label,
    presence: Presence::Without(&["payload-to", "sequence"]),
    help: "A header parameter that is printed after the line of an authentic message, by its label: an integer, or a text, in quotes where it begins as a number or with a quote; the option may be there several times",
};

/// Each token of a sequence.
const TOKENS: CommandOption = CommandOption {
    name: "sequence",
    argument: "",
    value: Value::Flag,
    presence: Presence::Optional,
    help: "Take a CBOR sequence of messages (RFC 8742), each printed after its place",
};

/// Each message of a sequence.
const SEQUENCE: CommandOption = CommandOption {
    name: "sequence",
    argument: "",
    value: Value::Flag,
    presence: Presence::Without(&[
        "payload",
        "payload-file",
        "payload-length",
        "payload-to",
        "header",
    ]),
    help: "Take a CBOR sequence of messages (RFC 8742), each printed after its place",
};

/// The current time.
const NOW: CommandOption = CommandOption {
    name: "now",
    argument: "N",
    value: Value::Number(Number::Time),
    presence: Presence::Required,
    help: "The current time, in seconds since 1970; the program reads no clock",
};

/// The leeway.
const LEEWAY: CommandOption = CommandOption {
    name: "leeway",
    argument: "N",
    value: Value::Number(Number::Seconds),
    presence: Presence::Default("0"),
    help: "By how many seconds the clocks of issuer and reader may differ",
};

/// The audience.
const AUD: CommandOption = CommandOption {
    name: "aud",
    argument: "TEXT",
    value: Value::Text,
    presence: Presence::Optional,
    help: "The audience that a token has to name, where it names one; without this option the audience isn't compared",
};

/// The audience, also where a token names none.
const REQUIRE_AUD: CommandOption = CommandOption {
    name: "require-aud",
    argument: "",
    value: Value::Flag,
    presence: Presence::Optional,
    help: "Refuse a token that doesn't name the audience of --aud, or, without --aud, that names none",
};

/// The issuer.
const ISS: CommandOption = CommandOption {
    name: "iss",
    argument: "TEXT",
    value: Value::Text,
    presence: Presence::Optional,
    help: "The issuer that a token has to name",
};

/// The subject.
const SUB: CommandOption = CommandOption {
    name: "sub",
    argument: "TEXT",
    value: Value::Text,
    presence: Presence::Optional,
    help: "The subject that a token has to name",
};

/// The claims that have to be present.
const REQUIRE: CommandOption = CommandOption {
    name: "require",
    argument: "CLAIM",
    value: Value::NamedOften(CLAIMS),
    presence: Presence::Optional,
    help: "A claim that a token has to have; the option may be there several times",
};

/// The longest lifetime.
const MAX_LIFETIME: CommandOption = CommandOption {
    name: "max-lifetime",
    argument: "N",
    value: Value::Number(Number::Count),
    presence: Presence::Optional,
    help: "The most seconds from now, and from iat, to exp, which has to be there",
};

/// The greatest age.
const MAX_AGE: CommandOption = CommandOption {
    name: "max-age",
    argument: "N",
    value: Value::Number(Number::Count),
    presence: Presence::Optional,
    help: "The most seconds since iat, which has to be there and not in the future",
};

/// Texts and dates as people read them.
const TEXT: CommandOption = CommandOption {
    name: "text",
    argument: "",
    value: Value::Flag,
    presence: Presence::Optional,
    help: "Print iss, sub and aud in quotes too, and dates as RFC 3339 has them, after the value",
};

/// The claims that are printed.
const SHOWN_CLAIMS: CommandOption = CommandOption {
    name: "claims",
    argument: "WHICH",
    value: Value::Named(SHOWN),
    presence: Presence::Optional,
    help: "Print the other claims too, in diagnostic notation (RFC 8949 section 8), in the order of the payload",
};

/// The algorithm.
const ALG: CommandOption = CommandOption {
    name: "alg",
    argument: "N",
    value: Value::Number(Number::Mac),
    presence: Presence::Required,
    help: "The algorithm: HMAC 256/64 (4), 256/256 (5), 384/384 (6) or 512/512 (7)",
};

/// The key.
const KEY: CommandOption = CommandOption {
    name: "key",
    argument: "HEX",
    value: Value::Text,
    presence: Presence::Optional,
    help: "The key, one symmetric COSE_Key (RFC 9052 section 7)",
};

/// The key's file.
const KEY_FILE: CommandOption = CommandOption {
    name: "key-file",
    argument: "PATH",
    value: Value::Text,
    presence: Presence::Optional,
    help: "The file that has the bytes of the key, at most 65,535, in place of --key",
};

/// The payload's length.
const LENGTH: CommandOption = CommandOption {
    name: "length",
    argument: "N",
    value: Value::Number(Number::Length),
    presence: Presence::Required,
    help: "The number of bytes of the payload, below 2^56; fewer on standard input end with status 2, and what follows them is left unread",
};

/// The key's identifier.
const KID: CommandOption = CommandOption {
    name: "kid",
    argument: "HEX",
    value: Value::Text,
    presence: Presence::Optional,
    help: "The identifier of the key that the message names, at most 255 bytes; without it the message names none",
};

/// The key set, or its file.
const KEY_SET: Option<OneOf> = Some(OneOf {
    name: "key set",
    option: "keys",
    other: "keys-file",
});

/// The key, or its file.
const KEY_BYTES: Option<OneOf> = Some(OneOf {
    name: "key bytes",
    option: "key",
    other: "key-file",
});

// The time that a check takes for a table grows with the square of its length, so each command has tables of its own.

/// What a message of any kind is verified under.
const CHECKS: &[CommandOption] = &[KEYS, KEYS_FILE, ALGS, LEAST_SECRET, AAD, KIND, VOUCH];

/// What a COSE_Sign1 is read under.
const DIGEST_CHECKS: &[CommandOption] = &[KEYS, KEYS_FILE, ALGS, LEAST_SECRET, AAD];

/// The other options of `verify`.
const VERIFY_OPTIONS: &[CommandOption] = &[
    DETACHED,
    PAYLOAD_FILE,
    PAYLOAD_LENGTH,
    PAYLOAD_TO,
    HEADER,
    SEQUENCE,
    INPUT,
    LIMITS,
];

/// The other options of `cwt`.
const CWT_OPTIONS: &[CommandOption] = &[
    NOW,
    LEEWAY,
    AUD,
    REQUIRE_AUD,
    ISS,
    SUB,
    REQUIRE,
    MAX_LIFETIME,
    MAX_AGE,
    TEXT,
    SHOWN_CLAIMS,
    TOKENS,
    INPUT,
    LIMITS,
];

/// The other options of `digest`.
const DIGEST_OPTIONS: &[CommandOption] = &[DETACHED, PAYLOAD_FILE, PAYLOAD_LENGTH, INPUT, LIMITS];

/// The options of `show`.
const SHOW_OPTIONS: &[CommandOption] = &[
    KIND,
    DIAGNOSTIC,
    WITHOUT_PAYLOAD,
    WITH_PAYLOAD,
    INPUT,
    LIMITS,
];

/// The options of `keys`.
const KEYS_OPTIONS: &[CommandOption] = &[KEYS, KEYS_FILE, FOR_MESSAGE, KIND, INPUT];

/// The options of `make`.
const MAKE_OPTIONS: &[CommandOption] = &[ALG, KEY, KEY_FILE, LENGTH, KID, AAD];

/// The command `show`.
fn show() -> Subcommand {
    Subcommand {
        name: "show",
        about: "Shows the shape and the headers of the COSE message on standard input, under no key",
        notes: SHOW_NOTES,
        checks: &[],
        options: SHOW_OPTIONS,
        one_of: None,
    }
}

/// The command `verify`.
fn verify() -> Subcommand {
    Subcommand {
        name: "verify",
        about: "Verifies the COSE message on standard input and prints the verdict",
        notes: VERIFY_NOTES,
        checks: CHECKS,
        options: VERIFY_OPTIONS,
        one_of: KEY_SET,
    }
}

/// The command `cwt`.
fn cwt() -> Subcommand {
    Subcommand {
        name: "cwt",
        about: "Admits the CBOR Web Token on standard input and prints its claims",
        notes: CWT_NOTES,
        checks: CHECKS,
        options: CWT_OPTIONS,
        one_of: KEY_SET,
    }
}

/// The command `digest`.
fn digest() -> Subcommand {
    Subcommand {
        name: "digest",
        about: "Prints what the signature of the COSE_Sign1 on standard input has to be verified with",
        notes: DIGEST_NOTES,
        checks: DIGEST_CHECKS,
        options: DIGEST_OPTIONS,
        one_of: KEY_SET,
    }
}

/// The command `keys`.
fn keys() -> Subcommand {
    Subcommand {
        name: "keys",
        about: "Lists the items of a key set: the usable keys, and why an item is none",
        notes: KEYS_NOTES,
        checks: &[],
        options: KEYS_OPTIONS,
        one_of: KEY_SET,
    }
}

/// The command `make`.
fn make() -> Subcommand {
    Subcommand {
        name: "make",
        about: "Makes a COSE_Mac0 of the payload on standard input and writes its bytes",
        notes: MAKE_NOTES,
        checks: &[],
        options: MAKE_OPTIONS,
        one_of: KEY_BYTES,
    }
}

/// The program, before its commands.
fn program<'a>(alloc: Global) -> Command<'a> {
    Command::new(alloc, "cosecmd")
        .about(
            "Verifies COSE messages (RFC 9052) and CBOR Web Tokens (RFC 8392) that come on standard input, and makes COSE_Mac0",
        )
        .version(VERSION)
        .after_help(NOTES)
        .subcommand_required(true)
        .arg_required_else_help(true)
}

/// The commands, in the order in which help lists them, and their options.
pub fn line<'a>(alloc: Global) -> Result<Command<'a>, AllocError> {
    let subcommands = [show(), verify(), cwt(), digest(), keys(), make()];
    with_commands(alloc, program(alloc), &subcommands)
}
