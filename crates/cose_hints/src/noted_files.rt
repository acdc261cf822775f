//! The files of the process, of which standard error says what their first bytes show, and why they can't be used.

ghost use Rattle.std.specs.Prelude.{None};

use crate::cause::cause;
use crate::hints::{First, form_of, is_no_key, is_published, is_secret};
use crate::key_hints::fault_of_keys;
use cose_files::{HostFiles, NamedFiles, NamelessFile, NewFiles, open_with_length};
use std::alloc::Global;
use std::fs::File;
use std::io;
use std::io::{Error, ErrorKind, Read, Write};
use std::os::unix::fs::PermissionsExt;
use std::random::RandomSource;
use std::rt::Files;

/// The bits of a mode that let others than the owner read or write.
const OTHERS: u32 = 0o066;

/// The files of the process, where the file of keys is that of this option.
#[derive(Drop)]
pub struct NotedFiles<'r, R> {
    rt: &'r R,
    option: &'static str,
}

impl<'r, R> NotedFiles<'r, R> {
    /// The files for the command of these arguments.
    pub fn new(rt: &'r R, words: &[&str]) -> NotedFiles<'r, R> {
        let option = if words.get(1) == Some(&"make") {
            "key-file"
        } else {
            "keys-file"
        };
        NotedFiles { rt, option }
    }
}

/// An open file, of whose first bytes something is said once they are read.
#[derive(Drop)]
pub struct NotedFile<'r, R> {
    rt: &'r R,
    option: &'static str,
    file: File,
    first: First,
    /// Whether others may read or write the file.
    is_open_to_others: bool,
    /// Whether its first bytes are spoken of, or aren't to be.
    is_said: bool,
    /// Whether it has a key or a key set.
    has_keys: bool,
}

/// Whether others than the owner of a regular file may read or write it.
fn is_open_to_others(file: &File) -> bool {
    match file.metadata() {
        Ok(metadata) => metadata.is_file() && metadata.permissions().mode() & OTHERS != 0,
        Err(_) => false,
    }
}

/// Says why the file of an option can't be used.
fn say_cause(rt: &impl Eprint, option: &str, error: &Error) {
    let cause = cause(error.kind());
    let _ = eprintln!(rt; "cosecmd: the file of --{option} can't be used: {cause}");
}

impl<'r, R: Files<File = File> + Eprint> NamedFiles for NotedFiles<'r, R> {
    type File = NotedFile<'r, R>;

    ghost content = { λ _ _. None };

    fn open(&self, name: &str) -> io::Result<Self::File> {
        let file = match File::open(self.rt, name) {
            Ok(file) => file,
            Err(error) => {
                say_cause(self.rt, self.option, &error);
                return Err(error);
            },
        };
        Ok(NotedFile {
            rt: self.rt,
            option: self.option,
            is_open_to_others: is_open_to_others(&file),
            file,
            first: First::new(),
            is_said: false,
            has_keys: true,
        })
    }

    fn open_with_length(&self, name: &str, stated: Option<u64>) -> io::Result<(Self::File, u64)> {
        let (file, length) = match open_with_length(self.rt, name, stated) {
            Ok(opened) => opened,
            Err(error) => {
                say_cause(self.rt, "payload-file", &error);
                return Err(error);
            },
        };
        let noted = NotedFile {
            rt: self.rt,
            option: "payload-file",
            file,
            first: First::new(),
            is_open_to_others: false,
            is_said: true,
            has_keys: false,
        };
        Ok((noted, length))
    }
}

/// The new files of the process, of which standard error says why they can't be made, written or kept.
#[derive(Drop)]
pub struct NotedNewFiles<'r, R> {
    rt: &'r R,
    files: HostFiles<'r, R>,
}

impl<'r, R> NotedNewFiles<'r, R> {
    /// Before any file is made.
    pub fn new(rt: &'r R) -> NotedNewFiles<'r, R> {
        NotedNewFiles {
            rt,
            files: HostFiles::new(rt),
        }
    }
}

/// A new file while it is written.
#[derive(Drop)]
pub struct NotedNew<'r, R> {
    rt: &'r R,
    file: NamelessFile,
}

impl<'r, R: Files<File = File> + RandomSource + Eprint> NewFiles for NotedNewFiles<'r, R> {
    type New = NotedNew<'r, R>;

    ghost use Rattle.std.specs.Prelude.{false};

    ghost made = { λ noted. ⟦<HostFiles<'r, R> as NewFiles>⟧.made noted.files };

    ghost is_known = { false };

    fn look(&mut self, name: &str) -> io::Result<bool> {
        let looked = self.files.look(name);
        match &looked {
            Ok(true) => say_cause(
                self.rt,
                "payload-to",
                &Error::from(ErrorKind::AlreadyExists),
            ),
            Ok(false) => {},
            Err(error) => say_cause(self.rt, "payload-to", error),
        }
        looked
    }

    fn create(&mut self, alloc: Global, name: &str) -> io::Result<NotedNew<'r, R>> {
        match self.files.create(alloc, name) {
            Ok(file) => Ok(NotedNew { rt: self.rt, file }),
            Err(error) => {
                say_cause(self.rt, "payload-to", &error);
                Err(error)
            },
        }
    }

    fn keep(&mut self, file: &mut NotedNew<'r, R>) -> io::Result<()> {
        let kept = self.files.keep(&mut file.file);
        if let Err(error) = &kept {
            say_cause(self.rt, "payload-to", error);
        }
        kept
    }

    fn discard(&mut self) -> io::Result<()> {
        let gone = self.files.discard();
        if let Err(error) = &gone {
            let cause = cause(error.kind());
            let _ = eprintln!(self.rt;
                "cosecmd: the new file of --payload-to can't be removed: {cause}"
            );
        }
        gone
    }
}

impl<R: Eprint> Write for NotedNew<'_, R> {
    fn write(&mut self, bytes: &[u8]) -> io::Result<usize> {
        let written = self.file.write(bytes);
        if let Err(error) = &written {
            if error.kind() != ErrorKind::Interrupted {
                say_cause(self.rt, "payload-to", error);
            }
        }
        written
    }

    fn flush(&mut self) -> io::Result<()> {
        self.file.flush()
    }
}

impl<R: Eprint> NotedFile<'_, R> {
    /// Says why all the bytes are no key, or no key set.
    fn say_fault(&self) {
        let is_set = self.option == "keys-file";
        let option = if is_set { "keys-file" } else { "key-file" };
        if let Some(fault) = fault_of_keys(&self.first, is_set) {
            let _ = eprintln!(self.rt; "cosecmd: the file of --{option} {fault}");
        }
    }

    /// Says in which form the first bytes are, where it is one that isn't read.
    fn say_form(&self) {
        let option = self.option;
        if let Some(form) = form_of(self.first.known()) {
            let (name, advice) = (form.name(), form.advice_on_keys());
            let _ = eprintln!(self.rt;
                "cosecmd: the file of --{option} begins as {name} does; {advice}"
            );
        }
    }

    /// Whether the first bytes may be those of a secret key.
    fn may_be_secret(&self) -> bool {
        let first = self.first.known();
        (self.option == "key-file" || is_secret(first)) && !is_published(first)
    }

    /// Says what there is to say of the first bytes.
    fn say(&self) {
        let option = self.option;
        self.say_form();
        if is_no_key(self.first.known()) {
            let _ = eprintln!(self.rt;
                "cosecmd: the file of --{option} begins as no key in CBOR does; of a secret examples/cose_key \
                (installed: cosecmd-key) --secret-file makes one"
            );
        }
        if self.is_open_to_others && self.may_be_secret() {
            let _ = eprintln!(self.rt;
                "cosecmd: others may read or change the file of --{option}, which has a secret key"
            );
        }
    }
}

impl<R: Eprint> Read for NotedFile<'_, R> {
    fn read(&mut self, into: &mut [u8]) -> io::Result<usize> {
        let count = match self.file.read(into) {
            Ok(count) => count,
            Err(error) => {
                say_cause(self.rt, self.option, &error);
                return Err(error);
            },
        };
        if !self.is_said {
            if let Some(bytes) = into.get(..count) {
                self.first.note(bytes);
            }
            if count == 0 || self.first.is_enough() {
                self.is_said = true;
                self.say();
            }
        } else if let Some(bytes) = into.get(..count) {
            self.first.note(bytes);
        }
        if count == 0 && self.has_keys {
            self.say_fault();
        }
        Ok(count)
    }
}
