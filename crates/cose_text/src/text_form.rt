//! Bytes as text: hexadecimal, and base64url (RFC 4648), one character after the other.

ghost use Rattle.std.specs.Prelude.{◌≡◌, ◌≤◌, ◌<◌, ◌||◌, None, Some, is_some, option_map, if◌then◌else◌};
ghost use Rattle.cose_text.specs.TextForm.{after, after_blank, after_character, after_fourth_character, after_third_character, after_value, base64url_value, begun, byte_of, given, hexadecimal_value, is_blank, leads_hexadecimal, may_end};

/// What an input has next, by the characters before.
#[derive(Clone, Copy)]
pub enum Next {
    /// A byte that stands for itself.
    Byte,
    /// The first byte of all, which says whether the input is a text.
    First,
    /// The first character of a text, which says what form it is in. Blanks may have come.
    Text,
    /// The first digit of a byte in hexadecimal.
    High,
    /// The second digit, after one of this value.
    Low(u8),
    /// The first of four characters of base64url.
    Group,
    /// The second, after one of this value.
    Second(u8),
    /// The third, after one of this value, or two signs of padding.
    Third(u8),
    /// The fourth, after one of this value, or a sign of padding.
    Fourth(u8),
    /// The second sign of padding.
    Padding,
    /// The end: blanks alone may come.
    End,
    /// None: a character was wrong.
    Wrong,
    /// None: the input ended where a character was missing.
    Short,
}

/// Whether a character is a line break, a space or a tab.
fn is_blank_character(byte: u8) -> bool
    ensures { result ≡ is_blank byte }
{
    byte == b' ' || byte == b'\n' || byte == b'\r' || byte == b'\t'
}

/// The value of a hexadecimal digit.
fn hexadecimal(byte: u8) -> Option<u8>
    ensures { result ≡ hexadecimal_value byte }
{
    if b'0' <= byte && byte <= b'9' {
        return Some(byte - b'0');
    }
    if b'A' <= byte && byte <= b'F' {
        return Some(byte - 55);
    }
    if b'a' <= byte && byte <= b'f' {
        return Some(byte - 87);
    }
    None
}

/// The value of a character of base64url (RFC 4648 section 5), or of one that base64 has in its place (section 4).
fn base64url(byte: u8) -> Option<u8>
    ensures { result ≡ base64url_value byte }
{
    if b'A' <= byte && byte <= b'Z' {
        return Some(byte - 65);
    }
    if b'a' <= byte && byte <= b'z' {
        return Some(byte - 71);
    }
    if b'0' <= byte && byte <= b'9' {
        return Some(byte + 4);
    }
    if byte == b'-' || byte == b'+' {
        return Some(62);
    }
    if byte == b'_' || byte == b'/' {
        return Some(63);
    }
    None
}

/// Whether a text that begins with this character is in hexadecimal.
fn is_hexadecimal_lead(byte: u8) -> bool
    ensures { result ≡ leads_hexadecimal byte }
{
    byte == b'8' || byte == b'9' || b'A' <= byte && byte <= b'F' || b'a' <= byte && byte <= b'f'
}

/// The last eight bits of what these make: a character's value, shifted by as many bits as this factor says, and the first
/// bits of the next one's, which this divisor leaves.
fn with_last_bits(before: u8, factor: u16, value: Option<u8>, divisor: u16) -> Option<u8>
    requires factor { factor ≤ 64 }
    requires divisor { 0 < divisor }
    ensures { result ≡ option_map (byte_of before factor divisor) value }
{
    match value {
        Some(value) => {
            let bits = u16::from(before) * factor + u16::from(value) / divisor;
            Some((bits % 256) as u8)
        }
        None => None,
    }
}

/// The first byte of all, where the input is no text.
fn untouched(byte: u8) -> Option<u8>
    ensures { result ≡ if is_blank byte || is_some (base64url_value byte) then None else Some byte }
{
    if is_blank_character(byte) || base64url(byte).is_some() {
        return None;
    }
    Some(byte)
}

/// What comes after the first digit of a byte in hexadecimal.
fn after_high(byte: u8) -> Next
    ensures { result ≡ after_value Next.Low (hexadecimal_value byte) }
{
    match hexadecimal(byte) {
        Some(value) => Next::Low(value),
        None => Next::Wrong,
    }
}

/// What comes after the first of four characters of base64url.
fn after_group(byte: u8) -> Next
    ensures { result ≡ after_value Next.Second (base64url_value byte) }
{
    match base64url(byte) {
        Some(value) => Next::Second(value),
        None => Next::Wrong,
    }
}

/// What comes after the second of four characters of base64url.
fn after_second(byte: u8) -> Next
    ensures { result ≡ after_value Next.Third (base64url_value byte) }
{
    match base64url(byte) {
        Some(value) => Next::Third(value),
        None => Next::Wrong,
    }
}

/// What comes after the third of four characters of base64url.
fn after_third(byte: u8) -> Next
    ensures { result ≡ after_third_character byte }
{
    if byte == b'=' {
        return Next::Padding;
    }
    match base64url(byte) {
        Some(value) => Next::Fourth(value),
        None => Next::Wrong,
    }
}

/// What comes after the last of four characters of base64url.
fn after_fourth(byte: u8) -> Next
    ensures { result ≡ after_fourth_character byte }
{
    if byte == b'=' {
        return Next::End;
    }
    match base64url(byte) {
        Some(_) => Next::Group,
        None => Next::Wrong,
    }
}

/// What comes after the second digit of a byte in hexadecimal.
fn after_low(byte: u8) -> Next
    ensures { result ≡ if is_some (hexadecimal_value byte) then Next.High else Next.Wrong }
{
    match hexadecimal(byte) {
        Some(_) => Next::High,
        None => Next::Wrong,
    }
}

/// What comes after the first character of a text.
fn after_text(byte: u8) -> Next
    ensures { result ≡ begun byte }
{
    if is_hexadecimal_lead(byte) {
        return after_high(byte);
    }
    after_group(byte)
}

/// What comes after the first byte of all.
fn after_first(byte: u8) -> Next
    ensures { result ≡ if is_some (base64url_value byte) then begun byte else Next.Byte }
{
    match base64url(byte) {
        Some(_) => after_text(byte),
        None => Next::Byte,
    }
}

impl Next {
    /// What comes after a blank.
    fn after_blank(self) -> Next
        ensures { result ≡ after_blank self }
    {
        match self {
            Next::First => Next::Text,
            _ => self,
        }
    }

    /// What comes after a character that isn't a blank.
    fn after_character(self, byte: u8) -> Next
        ensures { result ≡ after_character self byte }
    {
        match self {
            Next::Byte => Next::Byte,
            Next::First => after_first(byte),
            Next::Text => after_text(byte),
            Next::High => after_high(byte),
            Next::Low(_) => after_low(byte),
            Next::Group => after_group(byte),
            Next::Second(_) => after_second(byte),
            Next::Third(_) => after_third(byte),
            Next::Fourth(_) => after_fourth(byte),
            Next::Padding if byte == b'=' => Next::End,
            Next::Padding => Next::Wrong,
            Next::End => Next::Wrong,
            Next::Wrong => Next::Wrong,
            Next::Short => Next::Short,
        }
    }

    /// What comes after a byte of the input.
    pub fn after(self, byte: u8) -> Next
        ensures { result ≡ after self byte }
    {
        if is_blank_character(byte) {
            return self.after_blank();
        }
        self.after_character(byte)
    }

    /// The byte that the input stands for where this one has come, if it is whole.
    pub fn given(self, byte: u8) -> Option<u8>
        ensures { result ≡ given self byte }
    {
        match self {
            Next::Byte => Some(byte),
            Next::First => untouched(byte),
            Next::Low(high) => with_last_bits(high, 16, hexadecimal(byte), 1),
            Next::Second(first) => with_last_bits(first, 4, base64url(byte), 16),
            Next::Third(second) => with_last_bits(second, 16, base64url(byte), 4),
            Next::Fourth(third) => with_last_bits(third, 64, base64url(byte), 1),
            _ => None,
        }
    }

    /// Whether an input may end here.
    pub fn may_end(self) -> bool
        ensures { result ≡ may_end self }
    {
        !matches!(
            self,
            Next::Low(_) | Next::Second(_) | Next::Padding | Next::Wrong | Next::Short
        )
    }
}
