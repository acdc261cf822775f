//! Overwrites bytes that are secret, as those of a block: what is derived from a key is as secret as the key.

ghost use Rattle.std.specs.Prelude.{◌≡◌, length, All};

/// Overwrites bytes with zeros. Of a block they are all that it is, so it has to be begun again; a block that is wiped and begun is as
/// one that was never opened.
#[unsafe(no_mangle)]
pub extern "C" fn cose_edge_wipe_bytes(bytes: &mut [u8])
    ensures zeros { All (λ byte. byte ≡ 0) bytes.new }
    ensures same_length { length bytes.new ≡ length bytes.old }
{
    bytes.fill(0);
}
