//! The new files of the process. What is written has no name while it is written, and goes into a file that has one only where it
//! is kept: a process that is ended before leaves nothing.

ghost use Rattle.std.specs.Prelude.{◌≡◌, true, IfErr, IfOk};
ghost use Rattle.std.specs.Fs.{asks_create_new};

use crate::new_file::{NewFiles, Standing};
use std::alloc::{AllocError, Global};
use std::fs::{File, Metadata, OpenOptions};
use std::io::{BufWriter, Error, ErrorKind, Seek, SeekFrom, Write};
use std::os::unix::fs::{MetadataExt, OpenOptionsExt};
use std::random::RandomSource;
use std::rt::Files;
use std::{fs, io};

/// The most bytes that are held before they are written.
const ROOM: usize = 16_384;

/// The new files of the process: what was found of the name, and the file.
#[derive(Drop)]
pub struct HostFiles<'r, R> {
    rt: &'r R,
    /// Whether something had the name, once that was looked at.
    is_taken: Option<bool>,
    file: Option<HostFile>,
}

/// A new file of the process.
#[derive(Drop)]
pub struct HostFile {
    /// The file that has a name, once it is made.
    named: Option<File>,
    name: String,
    temporary: String,
    standing: Standing,
}

/// The file without a name, to which is written.
#[derive(Drop)]
pub struct NamelessFile {
    writer: BufWriter<File>,
}

/// What has this name, if anything has it.
fn found(rt: &impl Files, name: &str) -> io::Result<Option<Metadata>> {
    match fs::symlink_metadata(rt, name) {
        Ok(metadata) => Ok(Some(metadata)),
        Err(error) if error.kind() == ErrorKind::NotFound => Ok(None),
        Err(error) => Err(error),
    }
}

/// Whether this name is that of the file with this metadata.
fn is_of(rt: &impl Files, name: &str, file: &Metadata) -> io::Result<bool> {
    match found(rt, name)? {
        Some(other) => Ok(other.dev() == file.dev() && other.ino() == file.ino()),
        None => Ok(false),
    }
}

/// Removes this name, where it is that of the file with this metadata.
fn remove(rt: &impl Files, name: &str, file: &Metadata) -> io::Result<()> {
    if !is_of(rt, name, file)? {
        return Ok(());
    }
    match fs::remove_file(rt, name) {
        Err(error) if error.kind() == ErrorKind::NotFound => Ok(()),
        removed => removed,
    }
}

/// How a new file is opened: where no file has its name, and by its owner alone. What is written is read again.
fn new_file_options() -> OpenOptions
    ensures new { asks_create_new result ≡ true }
{
    let mut options = OpenOptions::new();
    options.mode(0o600);
    options.read(true).write(true).create_new(true);
    options
}

/// A new file that has no name: it had this one until it was removed.
fn nameless(rt: &impl Files<File = File>, name: &str) -> io::Result<File> {
    let file = new_file_options().open(rt, name)?;
    remove(rt, name, &file.metadata()?)?;
    Ok(file)
}

/// The name with these digits of a file in the same folder as that of this name.
fn part_name(alloc: Global, name: &str, digits: &str) -> Result<String, AllocError> {
    match name.rsplit_once('/') {
        Some((folder, _)) => format!(in alloc; "{folder}/cosecmd-{digits}.part"),
        None => format!(in alloc; "cosecmd-{digits}.part"),
    }
}

/// A name in the same folder that no file is likely to have. It doesn't begin with this name, which may be as long as any.
fn temporary_name(rt: &impl RandomSource, alloc: Global, name: &str) -> io::Result<String> {
    let mut random = [0u8; 8];
    rt.fill_bytes(&mut random)?;
    let digits = hex::encode(alloc, random.as_slice())?;
    Ok(part_name(alloc, name, digits.as_str())?)
}

/// Copies a file from its first byte, and has the system write the copy.
fn copy(mut from: &File, mut to: &File) -> io::Result<()> {
    from.seek(SeekFrom::Start(0))?;
    io::copy(&mut from, &mut to)?;
    to.sync_all()
}

impl HostFile {
    /// The file that is to have this name.
    fn new(name: String, temporary: String) -> HostFile
        ensures name { result.name ≡ name }
        ensures standing { result.standing ≡ Standing.Unnamed }
    {
        HostFile {
            named: None,
            name,
            temporary,
            standing: Standing::Unnamed,
        }
    }

    /// The file that has a name.
    fn named(&self) -> io::Result<&File> {
        match &self.named {
            Some(named) => Ok(named),
            None => Err(Error::from(ErrorKind::NotFound)),
        }
    }

    /// Makes the file that has a name, at first the temporary one, and copies into it what was written.
    fn name_temporarily(&mut self, rt: &impl Files<File = File>, written: &File) -> io::Result<()>
        ensures name { self.new.name ≡ self.old.name }
    {
        let named = new_file_options().open(rt, self.temporary.as_str())?;
        self.named = Some(named);
        self.standing = Standing::Temporary;
        copy(written, self.named()?)
    }

    /// Removes the temporary name.
    fn remove_temporary(&self, rt: &impl Files) -> io::Result<()> {
        let file = self.named()?.metadata()?;
        remove(rt, self.temporary.as_str(), &file)
    }

    /// That this name is the file's: another process may have given it to another file.
    fn expect(&self, rt: &impl Files, name: &str) -> io::Result<()> {
        match is_of(rt, name, &self.named()?.metadata()?)? {
            true => Ok(()),
            false => Err(Error::from(ErrorKind::InvalidData)),
        }
    }

    /// Gives the file its own name, and takes the temporary one from it.
    fn take_name(&mut self, rt: &impl Files) -> io::Result<()>
        ensures name { self.new.name ≡ self.old.name }
    {
        self.expect(rt, self.temporary.as_str())?;
        // A link never takes the place of a file that has the name by now, as renaming would.
        fs::hard_link(rt, self.temporary.as_str(), self.name.as_str())?;
        self.standing = Standing::Both;
        self.expect(rt, self.name.as_str())?;
        self.remove_temporary(rt)
    }

    /// Removes both names, also where the temporary one was another file's by the time that it was linked.
    fn remove_both(&self, rt: &impl Files, file: &Metadata) -> io::Result<()> {
        let (name, temporary) = (self.name.as_str(), self.temporary.as_str());
        if let Some(linked) = found(rt, temporary)? {
            remove(rt, name, &linked)?;
        }
        remove(rt, name, file)?;
        remove(rt, temporary, file)
    }

    /// Removes the names that the file has.
    fn remove_names(&self, rt: &impl Files) -> io::Result<()> {
        match self.standing {
            Standing::Unnamed | Standing::Gone => Ok(()),
            Standing::Temporary => self.remove_temporary(rt),
            Standing::Both => self.remove_both(rt, &self.named()?.metadata()?),
            Standing::Kept => remove(rt, self.name.as_str(), &self.named()?.metadata()?),
            Standing::Stuck => Err(Error::from(ErrorKind::Other)),
        }
    }

    /// Gives what was written its own name.
    fn keep(&mut self, rt: &impl Files<File = File>, written: &File) -> io::Result<()>
        ensures name { self.new.name ≡ self.old.name }
        ensures kept { IfOk result (λ _. self.new.standing ≡ Standing.Kept) }
    {
        self.name_temporarily(rt, written)?;
        self.take_name(rt)?;
        self.standing = Standing::Kept;
        Ok(())
    }

    /// Removes the file.
    fn discard(&mut self, rt: &impl Files) -> io::Result<()>
        ensures name { self.new.name ≡ self.old.name }
        ensures gone { IfOk result (λ _. self.new.standing ≡ Standing.Gone) }
        ensures stuck { IfErr result (λ _. self.new.standing ≡ Standing.Stuck) }
    {
        match self.remove_names(rt) {
            Ok(()) => {
                self.standing = Standing::Gone;
                Ok(())
            }
            Err(error) => {
                self.standing = Standing::Stuck;
                Err(error)
            }
        }
    }
}

impl Write for NamelessFile {
    fn write(&mut self, bytes: &[u8]) -> io::Result<usize> {
        self.writer.write(bytes)
    }

    fn flush(&mut self) -> io::Result<()> {
        self.writer.flush()
    }
}

impl<'r, R> HostFiles<'r, R> {
    /// Before any file is made.
    pub fn new(rt: &'r R) -> HostFiles<'r, R> {
        HostFiles {
            rt,
            is_taken: None,
            file: None,
        }
    }
}

impl<R: Files<File = File> + RandomSource> NewFiles for HostFiles<'_, R> {
    type New = NamelessFile;

    ghost use Rattle.std.specs.Prelude.{false, option_map};
    ghost use Rattle.cose_files.specs.HostFile.{made_file};

    ghost made = { λ files.
        record { is_taken = files.is_taken; file = option_map made_file files.file } };

    ghost is_known = { false };

    fn look(&mut self, name: &str) -> io::Result<bool> {
        let is_taken = found(self.rt, name)?.is_some();
        self.is_taken = Some(is_taken);
        Ok(is_taken)
    }

    fn create(&mut self, alloc: Global, name: &str) -> io::Result<NamelessFile> {
        if name.is_empty() || self.file.is_some() {
            return Err(Error::from(ErrorKind::InvalidInput));
        }
        let temporary = temporary_name(self.rt, alloc, name)?;
        let name = format!(in alloc; "{name}")?;
        let file = nameless(self.rt, temporary.as_str())?;
        let writer = BufWriter::with_capacity(alloc, ROOM, file)?;
        self.file = Some(HostFile::new(name, temporary));
        Ok(NamelessFile { writer })
    }

    fn keep(&mut self, file: &mut NamelessFile) -> io::Result<()> {
        file.writer.flush()?;
        match &mut self.file {
            Some(named) => named.keep(self.rt, file.writer.get_ref()),
            None => Err(Error::from(ErrorKind::NotFound)),
        }
    }

    fn discard(&mut self) -> io::Result<()> {
        match &mut self.file {
            Some(named) => named.discard(self.rt),
            None => Ok(()),
        }
    }
}
