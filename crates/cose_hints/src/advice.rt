//! What standard error advises after a run, by its arguments and by the beginnings of what it read and printed. None of it changes
//! what standard output says, or how the run ends.

/// A run that has ended.
#[derive(Clone, Copy)]
pub struct Ended<'a> {
    /// Its arguments, the program's name first.
    pub words: &'a [&'a str],
    /// Its exit status.
    pub status: u8,
    /// The first bytes that it read from standard input.
    pub input: &'a [u8],
    /// The first bytes that it printed.
    pub printed: &'a [u8],
}

/// What is said of a signed message that was refused, since no signature was passed as good.
const UNVOUCHED: &str =
    "no signature is verified without --vouch; cosecmd-sign1 (examples/verify_sign1) has openssl verify it";

/// What is said of what `digest` prints.
const NO_VERDICT: &str =
    "not a verdict: whether the signature is good has to be decided by another program";

/// What is said of a refusal for want of room.
const LARGE: &str = "`--limits large` has more room";

/// What is said of a message that isn't shown, since its payload is elsewhere.
const WITHOUT_PAYLOAD: &str =
    "the payload of this message is elsewhere; `--detached` shows its headers";

/// What is said of a path that is a dash.
const DASH: &str = "a path of `-` names no stream here; /dev/stdin names standard input";

/// What is said of an option of `make` in another command.
const KEYS_FILE: &str =
    "this command takes --keys or --keys-file; --key and --key-file are options of `make`";

/// What is said of an option of other commands in `make`.
const KEY_FILE: &str =
    "`make` takes --key or --key-file, which has one key; --keys and --keys-file are options of other commands";

/// What is said of an argument that is no label.
const LABEL: &str =
    "--header takes a label: an integer from -2^63 to 2^63 - 1, or a text; one that begins as a \
number or with a quote is in quotes, as `show --diagnostic` writes it";

/// Whether some bytes are among these.
fn contains(bytes: &[u8], wanted: &[u8]) -> bool {
    for start in 0..bytes.len() {
        if let Some(rest) = bytes.get(start..) {
            if rest.starts_with(wanted) {
                return true;
            }
        }
    }
    false
}

impl<'a> Ended<'a> {
    /// Whether the run was that of this command.
    pub fn is_of(&self, command: &str) -> bool {
        match self.words.get(1) {
            Some(&word) => word == command,
            None => false,
        }
    }

    /// Whether the run was that of a command that takes a key set.
    fn takes_key_set(&self) -> bool {
        match self.words.get(1) {
            Some(&command) => matches!(command, "verify" | "cwt" | "digest" | "keys"),
            None => false,
        }
    }

    /// Whether this option is there, with its argument in the same word or in the next.
    fn has(&self, option: &str) -> bool {
        self.words.iter().any(|&word| match word.strip_prefix(option) {
            Some(rest) => rest.is_empty() || rest.starts_with('='),
            None => false,
        })
    }

    /// The argument of this option, in the same word or in the next.
    pub fn argument_of(&self, option: &str) -> Option<&'a str> {
        let mut follows = false;
        for &word in self.words {
            if follows {
                return Some(word);
            }
            if let Some(rest) = word.strip_prefix("--") {
                match rest.strip_prefix(option) {
                    Some("") => follows = true,
                    Some(rest) => {
                        if let Some(argument) = rest.strip_prefix('=') {
                            return Some(argument);
                        }
                    }
                    None => {}
                }
            }
        }
        None
    }

    /// Whether what is printed is this line.
    pub fn has_printed(&self, kind: &str, option: &str) -> bool {
        match self.printed.strip_prefix(kind.as_bytes()) {
            Some(rest) => rest.strip_prefix(option.as_bytes()) == Some("\n".as_bytes()),
            None => false,
        }
    }

    /// Whether this is an argument, in a word of its own or after an option's name.
    fn has_argument(&self, argument: &str) -> bool {
        self.words.iter().any(|&word| match word.strip_suffix(argument) {
            Some(rest) => rest.is_empty() || rest.ends_with('='),
            None => false,
        })
    }

    /// Whether the input begins as a COSE_Sign1, by its tag after that of a CWT or none, or by the kind that is asked for.
    fn is_signed(&self) -> bool {
        let message = match self.input.strip_prefix(&[0xd8, 0x3d]) {
            Some(message) => message,
            None => self.input,
        };
        message.first() == Some(&0xd2) || self.has_argument("sign1")
    }

    /// Whether an input is refused for want of room for what is read of it.
    fn is_past_room(&self) -> bool {
        contains(self.printed, "PastRoom at ".as_bytes())
            && !contains(self.printed, "PastRoom at 0\n".as_bytes())
    }

    /// Whether an input is refused for want of room for its payload.
    fn is_too_long(&self) -> bool {
        contains(self.printed, "PayloadTooLong at ".as_bytes())
            && (self.is_of("cwt") || self.has("--with-payload"))
    }

    /// Whether larger limits have more of what an input is refused for want of.
    fn is_past_limits(&self) -> bool {
        self.is_past_room()
            || self.is_too_long()
            || contains(self.printed, "TooDeep at ".as_bytes())
    }

    /// What to say of a message that isn't accepted.
    fn of_refusal(&self) -> Option<&'static str> {
        if self.printed.starts_with("fault ".as_bytes()) {
            return None;
        }
        let is_bad = contains(self.printed, "BadAuth at ".as_bytes());
        if is_bad && self.is_signed() && !self.has("--vouch") {
            return Some(UNVOUCHED);
        }
        let is_detached = self.printed.starts_with("refused Detached at ".as_bytes());
        if is_detached && self.is_of("show") {
            return Some(WITHOUT_PAYLOAD);
        }
        if self.is_past_limits() && !self.has_argument("large") {
            return Some(LARGE);
        }
        None
    }

    /// What to say of arguments that are refused.
    fn of_arguments(&self) -> Option<&'static str> {
        if self.printed.starts_with("fault file ".as_bytes()) && self.has_argument("-") {
            return Some(DASH);
        }
        if self.has_printed("fault line ", "header") {
            return Some(LABEL);
        }
        if !self.printed.starts_with("error: ".as_bytes()) {
            return None;
        }
        if self.is_of("make") {
            return if self.has("--keys") || self.has("--keys-file") {
                Some(KEY_FILE)
            } else {
                None
            };
        }
        if self.takes_key_set() && (self.has("--key") || self.has("--key-file")) {
            return Some(KEYS_FILE);
        }
        None
    }

    /// What to say after this run, where there is something that its answer doesn't say.
    pub fn advice(&self) -> Option<&'static str> {
        match self.status {
            0 if self.is_of("digest") && self.printed.starts_with("vouch ".as_bytes()) => Some(
                NO_VERDICT,
            ),
            0 => None,
            _ => match self.of_arguments() {
                Some(advice) => Some(advice),
                None => self.of_refusal(),
            },
        }
    }

    /// The list of algorithms, where it was refused. It may be a key that lacks its option.
    pub fn refused_algorithms(&self) -> Option<&'a str> {
        if !self.printed.starts_with("fault line algs".as_bytes()) {
            return None;
        }
        self.argument_of("algs")
    }
}
