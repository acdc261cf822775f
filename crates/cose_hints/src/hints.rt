//! What standard error says of bytes that begin as a text does, where CBOR is expected, and of a file of a secret key that others
//! may read. None of it changes what standard output says, or how the run ends.

/// How many first bytes are remembered. No line of a fault is longer, and hardly a text of clap's.
const ROOM: usize = 512;

/// How many bytes of an alphabet make a text of it. The shortest key of a MAC has so many in base64url.
const ENOUGH: usize = 12;

/// The first bytes of a stream or of a file.
#[derive(Clone, Copy)]
pub struct First {
    bytes: [u8; ROOM],
    length: usize,
}

impl First {
    /// Before there is any.
    pub fn new() -> First {
        First {
            bytes: [0; ROOM],
            length: 0,
        }
    }

    /// Takes the next bytes.
    pub fn note(&mut self, bytes: &[u8]) {
        if let Some(room) = self.bytes.get_mut(self.length..) {
            let count = room.len().min(bytes.len());
            if let (Some(room), Some(bytes)) = (room.get_mut(..count), bytes.get(..count)) {
                room.copy_from_slice(bytes);
            }
        }
        self.length = self.length.saturating_add(bytes.len());
    }

    /// The first bytes, as many as are remembered.
    pub fn known(&self) -> &[u8] {
        match self.bytes.get(..self.length) {
            Some(known) => known,
            None => &self.bytes,
        }
    }

    /// How many bytes there were.
    pub fn length(&self) -> usize {
        self.length
    }

    /// Whether there are enough of them to tell what they begin as.
    pub fn is_enough(&self) -> bool {
        self.length >= ENOUGH
    }
}

/// A form of texts that people have keys and messages in. No message, key or key set in CBOR begins as one of them does: its
/// first byte is that of an array, a map or a tag, and none of these is ASCII.
#[derive(Clone, Copy)]
pub enum Form {
    /// PEM (RFC 7468).
    Pem,
    /// JSON, as a JWK is (RFC 7517).
    Json,
    /// A JSON Web Token, or another compact form of JOSE (RFC 7519).
    JsonWebToken,
    /// Hexadecimal.
    Hexadecimal,
    /// Base64url (RFC 4648 section 5).
    Base64url,
    /// Letters and digits, of which no more is known.
    Letters,
}

/// Whether a byte is a character of base64url.
fn is_base64url(byte: u8) -> bool {
    byte.is_ascii_alphanumeric() || byte == b'-' || byte == b'_'
}

/// The form of a text that begins with this byte, which is all that is read of such an input.
pub fn form_of_first(byte: u8) -> Option<Form> {
    match byte {
        b'-' => Some(Form::Pem),
        b'{' => Some(Form::Json),
        _ if is_base64url(byte) => Some(Form::Letters),
        _ => None,
    }
}

/// The form of a text that these bytes begin as, where they do.
pub fn form_of(first: &[u8]) -> Option<Form> {
    if first.starts_with(b"-----BEGIN ") {
        return Some(Form::Pem);
    }
    if first.starts_with(b"{") {
        return Some(Form::Json);
    }
    // `{"` in base64url
    if first.starts_with(b"eyJ") {
        return Some(Form::JsonWebToken);
    }
    let letters = first.get(..ENOUGH)?;
    if letters.iter().all(|byte| byte.is_ascii_hexdigit()) {
        return Some(Form::Hexadecimal);
    }
    if letters.iter().all(|&byte| is_base64url(byte)) {
        return Some(Form::Base64url);
    }
    None
}

impl Form {
    /// What standard error calls it.
    pub fn name(self) -> &'static str {
        match self {
            Form::Pem => "PEM",
            Form::Json => "JSON",
            Form::JsonWebToken => "a JSON Web Token",
            Form::Hexadecimal => "hexadecimal",
            Form::Base64url => "base64url",
            Form::Letters => "base64url or hexadecimal",
        }
    }

    /// What to do with bytes in this form, where a message is expected.
    pub fn advice(self) -> &'static str {
        match self {
            Form::Pem | Form::Json => "it has to be CBOR",
            Form::JsonWebToken => "COSE is read here, and nothing of JOSE",
            Form::Hexadecimal => "`--input hex` decodes it",
            Form::Base64url => "`--input base64url` decodes it",
            Form::Letters => "`--input auto` decodes it (a JSON Web Token is no COSE)",
        }
    }

    /// What to do with bytes in this form, where keys are expected.
    pub fn advice_on_keys(self) -> &'static str {
        match self {
            Form::Pem | Form::Json =>
                "examples/cose_key (installed: cosecmd-key) makes keys in CBOR of it",
            Form::JsonWebToken => self.advice(),
            Form::Hexadecimal | Form::Base64url | Form::Letters =>
                "it has to be CBOR: decode it first; of a secret examples/cose_key (installed: cosecmd-key) makes a key",
        }
    }
}

/// The key of the examples, a test case of RFC 4231 (section 4.3): no secret of anybody's.
const PUBLISHED: &[u8] = &[0xa2, 1, 4, 0x20, 0x44, b'J', b'e', b'f', b'e'];

/// Whether these bytes are a key that everybody knows.
pub fn is_published(first: &[u8]) -> bool {
    first == PUBLISHED
}

/// Whether these bytes begin as no key and no key set does, and are none of the forms either: a secret, perhaps.
pub fn is_no_key(first: &[u8]) -> bool {
    match first.first() {
        // arrays and maps (RFC 8949 section 3.1)
        Some(&head) => !matches!(head, 0x80..=0xbf) && form_of(first).is_none(),
        None => false,
    }
}

/// Whether these bytes begin as a symmetric key does whose type comes first, as the shortest spelling has it (RFC 9052 section
/// 7.1), or as a key set whose first key is one.
pub fn is_secret(first: &[u8]) -> bool {
    let key = match first.split_first() {
        Some((&set, keys)) if matches!(set, 0x81..=0x97) => keys,
        _ => first,
    };
    match key.split_first() {
        Some((&pairs, rest)) => matches!(pairs, 0xa1..=0xb7) && rest.starts_with(&[1, 4]),
        None => false,
    }
}
