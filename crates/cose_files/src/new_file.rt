//! Files that are new: the payload of an authentic message is kept in one.

ghost use Rattle.std.specs.Prelude.{◌≡◌, ℕ, Bool, true, List, [], Option, Some, None, IfErr, IfOk};
ghost use Rattle.cose_files.specs.NewFile.{IsFirstFile, IsSettled, Made, looked, settled};

use std::alloc::Global;
use std::io;
use std::io::Write;

/// Under which of its names a new file is, if it is.
#[derive(Clone, Copy, Debug, PartialEq, Eq)]
pub enum Standing {
    /// Under no name yet.
    Unnamed,
    /// Under its temporary name.
    Temporary,
    /// Under both names.
    Both,
    /// Under its own name alone.
    Kept,
    /// Under no name: it was removed.
    Gone,
    /// The system didn't remove it.
    Stuck,
}

/// Where a new file is made, at most one of a run. It is written under no name, and has its own name only where it is kept.
///
/// A contract sees what was found of the name, and the file that was made: its name, under which of its names it is, and what it
/// holds, where that is known to it.
pub trait NewFiles {
    /// The file while it is written.
    type New: Write + Drop;

    ghost use Rattle.cose_files.specs.declared.new_file.Standing.TheVariants.{Gone, Kept, Stuck};

    ghost made: { Self → Made };

    // Whether what is written to a file is known to the contract.
    ghost is_known: { Bool };

    /// Looks whether something has this name: a file, a folder, or a link, wherever that leads.
    fn look(&mut self, name: &str) -> io::Result<bool>
        ensures looked { IfOk result (λ is_taken. made self.new ≡ looked is_taken (made self.old)) }
        ensures unseen { IfErr result (λ _. made self.new ≡ made self.old) };

    /// Makes the file that is to have this name, in the same folder. Its owner alone may read it.
    fn create(&mut self, alloc: Global, name: &str) -> io::Result<Self::New>
        ensures made { IfOk result (λ _. IsFirstFile name.now (made self.old) (made self.new)) }
        ensures looked { (made self.new).is_taken ≡ (made self.old).is_taken }
        ensures empty { is_known ≡ true → IfOk result (λ file. Self.New.contents file ≡ Some []) }
        ensures unmade { IfErr result (λ _. made self.new ≡ made self.old) };

    /// Gives the file its own name, where no other file has that name by then. It holds what was written.
    fn keep(&mut self, file: &mut Self::New) -> io::Result<()>
        ensures kept { IfOk result (λ _. made self.new
            ≡ settled Kept (Self.New.contents file.old) (made self.old)) }
        ensures unkept { IfErr result (λ _. IsSettled (made self.old) (made self.new)) };

    /// Removes the file, whatever names it has. A name that another file has by then stays.
    fn discard(&mut self) -> io::Result<()>
        ensures gone { IfOk result (λ _. made self.new ≡ settled Gone None (made self.old)) }
        ensures stuck { IfErr result (λ _. made self.new ≡ settled Stuck None (made self.old)) };
}
