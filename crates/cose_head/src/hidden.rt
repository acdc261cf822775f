//! What `Debug` prints in place of bytes that may be a key's.

ghost use Rattle.std.specs.Prelude.{Some, length};
ghost use Rattle.cose_head.specs.Hidden.{hidden_text};

use std::fmt;

/// Bytes that no log may show: `Debug` prints how many there are.
#[derive(Clone, Copy)]
pub struct Hidden<'a>(pub &'a [u8]);

impl fmt::Debug for Hidden<'_> {
    ghost debug_output = { λ hidden. Some (hidden_text (length hidden.0.now)) };

    fn fmt<W: fmt::Write>(&self, f: &mut fmt::Formatter<W>) -> fmt::Result {
        let length = self.0.len();
        write!(f, "{length} bytes")
    }
}
