//! The comparison of tags (RFC 2104 and RFC 9053 section 3.1): it takes the same steps whatever the bytes are.

ghost use Rattle.std.specs.Prelude.{◌≡◌, bytes_eq};

/// Whether two slices have the same bytes, for the comparison of a received tag with a computed one.
///
/// It returns at once where the lengths differ: a length isn't secret. Else it compares each byte of both in one pass
/// that doesn't end early, and no branch and no index depends on a byte's value. That is a property of this code, and
/// is not proved: a contract says what is returned, and neither in which time nor by which instructions. A compiler may
/// emit other instructions; those that it emitted were inspected.
#[inline(never)]
pub fn same_bytes(left: &[u8], right: &[u8]) -> bool
    ensures { result ≡ bytes_eq left.now right.now }
{
    if left.len() != right.len() {
        return false;
    }
    let mut same = true;
    'bytes: for i in 0..left.len() {
        same &= left[i] == right[i];
    }
    same
}
