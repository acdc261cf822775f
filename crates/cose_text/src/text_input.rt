//! An input that may be a text: the bytes that it stands for, decoded as they are read.

ghost use Rattle.std.specs.Prelude.{◌≡◌, ◌<◌, ◌≤◌, ◌++◌, ℕ, true, false, IfErr, IfOk, List, length, take};
ghost use Rattle.cose_text.specs.TextForm.{after, given, may_end};
ghost use Rattle.cose_text.specs.TextInput.{begins, bytes_from, listed, next_of, reader_of, to_come, with_byte};

use crate::text_form::Next;
use std::io;
use std::io::{ErrorKind, Read};

/// How an input writes its bytes.
#[derive(Clone, Copy)]
pub enum InputForm {
    /// They are the input.
    Cbor,
    /// In hexadecimal (RFC 4648 section 8, in upper or lower case).
    Hexadecimal,
    /// In base64url (RFC 4648 section 5), or in base64 (section 4), with padding or without it.
    Base64url,
    /// As the first byte says: it is no character of base64url in an input that is CBOR. A text whose first digit is from 8 on is
    /// in hexadecimal, and any other in base64url, which is right for each COSE message.
    Either,
}

impl InputForm {
    /// What an input in this form has next at its beginning.
    fn begins(self) -> Next
        ensures { result ≡ begins self }
    {
        match self {
            InputForm::Cbor => Next::Byte,
            InputForm::Hexadecimal => Next::High,
            InputForm::Base64url => Next::Group,
            InputForm::Either => Next::First,
        }
    }
}

/// Where an input is no text of its form.
#[derive(Clone, Copy)]
pub enum TextFault {
    /// This character of it, the first of which is 1.
    Character(u64),
    /// It ends where a character is missing.
    End,
}

/// The error of a read that finds no text.
fn wrong_text() -> io::Error {
    io::Error::from(ErrorKind::InvalidData)
}

/// Puts a byte, if there is one, at a place of a buffer, and returns how many it has put.
fn put(buffer: &mut [u8], at: usize, byte: Option<u8>) -> usize
    requires { at < length buffer.old }
    ensures buffer { buffer.new ≡ with_byte buffer.old at byte }
    ensures count { result ≡ length (listed byte) }
{
    match byte {
        Some(byte) => {
            buffer[at] = byte;
            1
        }
        None => 0,
    }
}

/// The bytes that an input stands for. They are decoded in the buffer of each read. Line breaks, spaces and tabs of a text stand
/// for nothing. A text with a wrong character, or without its last one, fails there with `InvalidData`.
#[derive(Drop)]
pub struct TextInput<R> {
    reader: R,
    next: Next,
    count: u64,
}

impl<R: Read> TextInput<R> {
    /// The bytes that this reader gives.
    pub fn new(reader: R) -> Self
        ensures reader { reader_of result ≡ reader }
        ensures next { next_of result ≡ begins InputForm.Cbor }
    {
        TextInput {
            reader,
            next: InputForm::Cbor.begins(),
            count: 0,
        }
    }

    /// Takes what is left of the reader for an input in this form.
    pub fn read_as(&mut self, form: InputForm)
        ensures reader { reader_of self.new ≡ reader_of self.old }
        ensures next { next_of self.new ≡ begins form }
    {
        self.next = form.begins();
        self.count = 0;
    }

    /// Where the input is found to be no text of its form.
    pub fn fault(&self) -> Option<TextFault> {
        match self.next {
            Next::Wrong => Some(TextFault::Character(self.count)),
            Next::Short => Some(TextFault::End),
            _ => None,
        }
    }

    /// Takes the next byte of the input, and gives the byte that is whole with it, if one is.
    fn step(&mut self, byte: u8) -> Option<u8>
        ensures given { result ≡ given (next_of self.old) byte }
        ensures next { next_of self.new ≡ after (next_of self.old) byte }
        ensures reader { reader_of self.new ≡ reader_of self.old }
    {
        let given = self.next.given(byte);
        if !matches!(self.next, Next::Wrong) {
            self.count = self.count.saturating_add(1);
        }
        self.next = self.next.after(byte);
        given
    }

    /// Decodes the first bytes of a buffer in their place, and returns how many bytes they stand for.
    fn decode(&mut self, buffer: &mut [u8], count: usize) -> usize
        requires within { count ≤ length buffer.old }
        ensures count { result ≤ count }
        ensures length { length buffer.new ≡ length buffer.old }
        ensures reader { reader_of self.new ≡ reader_of self.old }
        ensures bytes { (rest : List ℕ) →
            bytes_from (next_of self.old) (take count buffer.old ++ rest)
            ≡ take result buffer.new ++ bytes_from (next_of self.new) rest }
    {
        let mut decoded = 0;
        'bytes: for at in 0..count {
            let whole = self.step(buffer[at]);
            decoded += put(buffer, decoded, whole);
        }
        decoded
    }

    /// Whether the bytes are those of the reader.
    fn is_plain(&self) -> bool
        ensures { result ≡ true → next_of self.now ≡ Next.Byte }
    {
        matches!(self.next, Next::Byte)
    }

    /// Whether a character was wrong.
    fn is_wrong(&self) -> bool {
        matches!(self.next, Next::Wrong)
    }
}

impl<R: Read> Read for TextInput<R> {
    ghost use Rattle.cose_text.specs.TextInput.{next_of, reader_of, to_come};

    // The bytes that the input stands for from here on, where those of the reader are known.
    ghost remaining = { λ input. to_come (next_of input) (R.remaining (reader_of input)) };

    fn read(&mut self, buffer: &mut [u8]) -> io::Result<usize> {
        if self.is_plain() {
            return self.reader.read(buffer);
        }
        if buffer.is_empty() {
            return Ok(0);
        }
        let mut reads_left = u64::MAX;
        'reads: while reads_left > 0 {
            if self.is_wrong() {
                return Err(wrong_text());
            }
            reads_left -= 1;
            let count = self.reader.read(buffer)?;
            if count == 0 {
                if self.next.may_end() {
                    return Ok(0);
                }
                self.next = Next::Short;
                return Err(wrong_text());
            }
            let decoded = self.decode(buffer, count);
            if decoded > 0 {
                return Ok(decoded);
            }
        }
        Err(wrong_text())
    }
}
