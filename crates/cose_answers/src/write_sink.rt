//! A sink that writes what it gets.
//!
//! It borrows its writer. What it holds by the contract is the name of that reference and then the writer's bytes, so that the owner
//! finds in the writer what the sink got.

ghost use Rattle.std.specs.Prelude.{◌≡◌, false};
ghost use Rattle.cose_answers.specs.WriteSink.{held_through, name_in, writer_in};

use cose_msg::{Sink, SinkFault};
use std::io::Write;

/// Writes each piece whole, by as many writes as it takes. An error of the writer is a failure, and so is a write that takes no
/// byte.
#[derive(Drop)]
pub struct WriteSink<'w, W> {
    writer: &'w mut W,
    failed: bool,
}

impl<'w, W: Write> WriteSink<'w, W> {
    /// A sink that writes with this writer.
    pub fn new(writer: &'w mut W) -> Self
        ensures contents { ⟦<WriteSink<'w, W> as Sink>⟧.contents result
            ≡ held_through writer.entry.ghost_name (W.contents writer.entry.now) }
        ensures writer { writer_in result ≡ writer.old }
        ensures same_reference { name_in result ≡ writer.entry.ghost_name }
        ensures not_failed { ⟦<WriteSink<'w, W> as Sink>⟧.has_failed result ≡ false }
    {
        WriteSink {
            writer,
            failed: false,
        }
    }

    /// The writer, with all that it got.
    pub fn into_writer(self) -> &'w mut W
        ensures contents { held_through result.ghost_name (W.contents result.now)
            ≡ ⟦<WriteSink<'w, W> as Sink>⟧.contents self.entry }
        ensures writer { result.now ≡ writer_in self.entry }
        ensures same_reference { result.ghost_name ≡ name_in self.entry }
    {
        self.writer
    }
}

impl<W: Write> Sink for WriteSink<'_, W> {
    ghost contents = { λ sink. held_through sink.writer.ghost_name (W.contents sink.writer.now) };

    ghost has_failed = { λ sink. sink.failed };

    ghost sure = { λ _. 0 };

    fn put(&mut self, piece: &[u8]) -> Result<(), SinkFault> {
        let mut rest = piece;
        'bytes: while !rest.is_empty() {
            let count = match self.writer.write(rest) {
                Ok(count) => count,
                Err(_) => {
                    self.failed = true;
                    return Err(SinkFault);
                }
            };
            if count == 0 {
                self.failed = true;
                return Err(SinkFault);
            }
            let (_written, unwritten) = rest.split_at(count);
            rest = unwritten;
        }
        Ok(())
    }
}
