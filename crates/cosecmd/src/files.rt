//! The keys, or the key, in a file that an option names.

ghost use Rattle.std.specs.Prelude.{◌≡◌, ◌⊎◌, ℕ, List, Some, IfErr, IfOk, take};
ghost use Rattle.cose_map.specs.KeySet.{keys_of};
ghost use Rattle.cose_answers.specs.Printed.{ItemsPrint, keys_print};

use cose_answers::Fault;
use cose_files::NamedFiles;
use std::alloc::Global;
use std::io;
use std::io::Read;

/// The most bytes of a file that are read. A key set of so many is refused.
const MOST: usize = 65_536;

/// The first bytes of a file, at most 65,536.
fn first_bytes<F: NamedFiles>(alloc: Global, files: &F, name: &str) -> io::Result<Vec<u8>>
    ensures { (bytes : List ℕ) → F.content files.now name.now ≡ Some bytes →
        IfOk result (λ read. read.items ≡ take 65536 bytes) }
{
    let mut bytes = Vec::new(alloc);
    let mut front = files.open(name)?.take(MOST as u64);
    front.read_to_end(&mut bytes)?;
    Ok(bytes)
}

/// The bytes of the key set in the file that this option names, as far as they decide on it: of a file with more than
/// 65,536 bytes the first of them, which are refused as the whole file is.
pub fn key_set_bytes<F: NamedFiles>(
    alloc: Global,
    files: &F,
    option: &'static str,
    name: &str,
) -> Result<Vec<u8>, Fault>
    ensures keys { (bytes : List ℕ) → F.content files.now name.now ≡ Some bytes →
        IfOk result (λ read. keys_of read.items ≡ keys_of bytes) }
    ensures listed { (bytes : List ℕ) → F.content files.now name.now ≡ Some bytes →
        IfOk result (λ read. (said : ItemsPrint)
        → keys_print said read.items ≡ keys_print said bytes) }
    ensures fault { IfErr result (λ fault. (fault ≡ Fault.Memory)
        ⊎ (fault ≡ Fault.File option.entry)) }
{
    match first_bytes(alloc, files, name) {
        Ok(bytes) => Ok(bytes),
        Err(error) => Err(Fault::file(option, &error)),
    }
}

/// The bytes of the one key in the file that this option names, which has fewer than 65,536 bytes.
pub fn key_bytes<F: NamedFiles>(
    alloc: Global,
    files: &F,
    option: &'static str,
    name: &str,
) -> Result<Vec<u8>, Fault>
    ensures whole { (bytes : List ℕ) → F.content files.now name.now ≡ Some bytes →
        IfOk result (λ read. read.items ≡ bytes) }
    ensures fault { IfErr result (λ fault. (fault ≡ Fault.Memory)
        ⊎ (fault ≡ Fault.File option.entry)) }
{
    match first_bytes(alloc, files, name) {
        Ok(bytes) if bytes.len() < MOST => Ok(bytes),
        Ok(_) => Err(Fault::File(option)),
        Err(error) => Err(Fault::file(option, &error)),
    }
}
