//! Stores that are filled in place, and prefixes of pieces.

ghost use Rattle.std.specs.Prelude.{◌≡◌, ◌<◌, ◌≤◌, ◌+◌, ◌++◌, length, take};

use arrayvec::ArrayVec;

/// Appends a piece, where it fits.
pub(crate) fn append<const N: usize>(store: &mut ArrayVec<u8, N>, piece: &[u8])
    ensures { length store.old.items + length piece.now ≤ N
        → store.new.items ≡ store.old.items ++ piece.now }
{
    let _ = store.try_extend_from_slice(piece);
}

/// A prefix of a piece that isn't empty: at most this many bytes.
pub(crate) fn front_of(piece: &[u8], most: u64) -> &[u8]
    requires some { 0 < length piece.now }
    requires most { 0 < most }
    ensures front { result.now ≡ take (length result.now) piece.now }
    ensures some { 0 < length result.now }
    ensures most { length result.now ≤ most }
    ensures fits { length result.now ≤ length piece.now }
    ensures all { length piece.now ≤ most → length result.now ≡ length piece.now }
    ensures whole { length result.now < most → length result.now ≡ length piece.now }
{
    if piece.len() as u64 <= most {
        return piece;
    }
    &piece[..most as usize]
}
