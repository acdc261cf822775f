//! Files that are opened by their names, and those of the process, with their lengths.

ghost use Rattle.std.specs.Prelude.{◌≡◌, ℕ, List, Option, Some, IfOk, length, unwrap_or};
ghost use Rattle.std.specs.Fs.{IsFile, file_type, metadata_len};

use std::fs::{File, Metadata};
use std::io::{Error, ErrorKind, Read, Seek, SeekFrom};
use std::os::unix::fs::FileTypeExt;
use std::rt::Files;
use std::{fs, io};

/// Files, each of which is opened by its name.
///
/// A contract sees the bytes of a file by its name, where they are known to it.
pub trait NamedFiles {
    /// An open file.
    type File: Read + Drop;

    ghost content: { Self → List ℕ → Option (List ℕ) };

    /// Opens the file of this name, to be read from its first byte.
    fn open(&self, name: &str) -> io::Result<Self::File>
        ensures { (bytes : List ℕ) → content self.now name.now ≡ Some bytes →
            IfOk result (λ file. Self.File.remaining file ≡ Some bytes) };

    /// Opens the file of this name, to be read from its first byte, and returns how many bytes are to be read of it too: as
    /// many as are stated, or else as many as it has. Then a file that has no such number is an error.
    fn open_with_length(&self, name: &str, stated: Option<u64>) -> io::Result<(Self::File, u64)>
        ensures { (bytes : List ℕ) → content self.now name.now ≡ Some bytes →
            IfOk result (λ opened. (Self.File.remaining opened.0 ≡ Some bytes)
            × (opened.1 ≡ unwrap_or stated (length bytes))) };
}

/// The number of bytes of a regular file. Of a directory, a pipe or a device it is unknown.
fn length_of_regular(metadata: &Metadata) -> io::Result<u64>
    ensures length { IfOk result (λ length. length ≡ metadata_len metadata.now) }
    ensures regular { IfOk result (λ _. IsFile (file_type metadata.now)) }
{
    if metadata.is_file() {
        return Ok(metadata.len());
    }
    Err(Error::from(ErrorKind::InvalidInput))
}

/// The regular file of this name, opened, and the number of its bytes.
fn open_regular(rt: &impl Files<File = File>, name: &str) -> io::Result<(File, u64)> {
    let file = File::open(rt, name)?;
    let length = length_of_regular(&file.metadata()?)?;
    Ok((file, length))
}

/// A block device that is open, at its first byte, and the number of its bytes, which its metadata doesn't have.
fn open_block_device(mut device: File) -> io::Result<(File, u64)> {
    let length = device.seek(SeekFrom::End(0))?;
    device.seek(SeekFrom::Start(0))?;
    Ok((device, length))
}

/// Opens the file of the process that has this name, and returns how many bytes are to be read of it too, as
/// [`NamedFiles::open_with_length`] says.
pub fn open_with_length(
    rt: &impl Files<File = File>,
    name: &str,
    stated: Option<u64>,
) -> io::Result<(File, u64)> {
    if let Some(length) = stated {
        return Ok((File::open(rt, name)?, length));
    }
    // To open a pipe would be to wait for its writer.
    let metadata = fs::metadata(rt, name)?;
    if metadata.file_type().is_block_device() {
        return open_block_device(File::open(rt, name)?);
    }
    length_of_regular(&metadata)?;
    open_regular(rt, name)
}
