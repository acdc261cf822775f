//! The tags of a message, and the head of its array (RFC 9052 section 2, RFC 8392 section 6).

ghost use Rattle.std.specs.Prelude.{◌≡◌};
ghost use Rattle.cose_msg.specs.Front as spec;

use crate::bare_head::take_bare_head_byte;
use crate::context::Wanted;
use crate::phase::{ArrayHead, Phase, TagHead};
use crate::reader::Reader;
use cose_head::{Head, HeadStep, Kind, Reason};

/// The tag of a CWT (RFC 8392 section 6).
const CWT: u64 = 61;

/// Whether a head is that of a tag.
pub(crate) fn is_tag(head: &Head) -> bool
    ensures { result ≡ spec.is_tag head.now }
{
    head.major == 6
}

/// Whether a head is the tag of a CWT, where one is admitted.
pub(crate) fn is_cwt_tag(is_admitted: bool, head: &Head) -> bool
    ensures { result ≡ spec.is_cwt_tag is_admitted head.now }
{
    is_admitted && is_tag(head) && head.arg == CWT
}

/// Whether a head is that of an array.
pub(crate) fn is_array(head: &Head) -> bool
    ensures { result ≡ spec.is_array head.now }
{
    head.major == 4
}

/// The kind, where it is wanted under its tag.
fn wanted_kind(wanted: Wanted, kind: Kind) -> Result<Kind, Reason>
    ensures { result ≡ spec.wanted_kind wanted kind }
{
    match (wanted, kind) {
        (Wanted::Mac0, Kind::Sign1) | (Wanted::Sign1, Kind::Mac0) => Err(Reason::WrongTag),
        (Wanted::Mac0, Kind::Mac0) | (Wanted::Sign1, Kind::Sign1) | (Wanted::Tagged, _) => Ok(kind),
    }
}

/// The kind of message that a tag identifies (RFC 9052 section 2, table 1).
pub(crate) fn kind_of_tag(wanted: Wanted, number: u64) -> Result<Kind, Reason>
    ensures { result ≡ spec.kind_of_tag wanted number }
{
    match number {
        17 => wanted_kind(wanted, Kind::Mac0),
        18 => wanted_kind(wanted, Kind::Sign1),
        16 | 96 => Err(Reason::Encrypted),
        97 | 98 => Err(Reason::SeveralParties),
        _ => Err(Reason::WrongTag),
    }
}

/// The kind that a head after the CWT tag gives.
pub(crate) fn cose_tag(wanted: Wanted, head: &Head) -> Result<Kind, Reason>
    ensures { result ≡ spec.tag_after_cwt wanted head.now }
{
    if !is_tag(head) {
        return Err(Reason::CwtTagAlone);
    }
    kind_of_tag(wanted, head.arg)
}

/// What is wrong with the head of a message's array, which has four elements.
pub(crate) fn fault_of_array(head: &Head) -> Option<Reason>
    ensures { result ≡ spec.array_head_fault head.now }
{
    if !is_array(head) {
        return Some(Reason::WrongType);
    }
    if head.arg != 4 {
        return Some(Reason::NotFour);
    }
    None
}

impl<'k, const H: usize, const D: usize> Reader<'k, H, D> {
    ghost use Rattle.std.specs.Prelude.{ℕ, ◌+◌, ◌≤◌, List, [], ◌∷◌};
    ghost use Rattle.cose_msg.specs.Front.{array_head, past_array_head, past_tag, past_untagged, past_first_head, second_head};
    ghost use Rattle.cose_msg.specs.Phases.{nothing_so_far};
    ghost use Rattle.cose_msg.specs.Reading.{Reading};
    ghost use Rattle.cose_msg.specs.Task.{Task, rules_of};
    ghost use Rattle.cose_msg.specs.Reader.{HasFindings, ReaderMeans};

    /// Takes the next byte of the first head.
    pub(crate) fn first_head(&mut self, byte: u8)
        requires phase { self.old.phase ≡ Phase.FirstHead }
        ensures reads_on { (task : Task) (payload : List ℕ) (n : ℕ) (reading : List ℕ → Reading)
            → ReaderMeans task payload n self.old reading
            → ReaderMeans task payload (n + 1) self.new (λ more. reading (byte ∷ more)) }
    {
        match take_bare_head_byte(&mut self.head, byte) {
            HeadStep::More(_) => {}
            HeadStep::Fault(reason) => self.refuse(reason, 0),
            HeadStep::Got(head, used) => self.past_first_head(head, used as u64),
        }
    }

    /// What follows the first head.
    fn past_first_head(&mut self, head: Head, at: u64)
        requires early { at ≤ 9 }
        ensures reads_on { (task : Task) → HasFindings task nothing_so_far self.old
            → ReaderMeans task [] at self.new
            (λ more. past_first_head (rules_of H D task) 0 head at more) }
    {
        let wanted = self.terms.wanted;
        if is_cwt_tag(self.terms.cwt, &head) {
            self.begin_tag_head(at);
        } else if is_tag(&head) {
            self.past_tag(kind_of_tag(wanted, head.arg), 0, at);
        } else if is_array(&head) {
            self.past_untagged(wanted, head, at);
        } else {
            self.refuse(Reason::WrongType, 0);
        }
    }

    /// What follows the head of an array without a tag.
    fn past_untagged(&mut self, wanted: Wanted, head: Head, at: u64)
        requires early { at ≤ 9 }
        ensures reads_on { (task : Task) → HasFindings task nothing_so_far self.old
            → ReaderMeans task [] at self.new
            (λ more. past_untagged (rules_of H D task) wanted 0 head at more) }
    {
        match wanted {
            Wanted::Mac0 => self.past_array_head(Kind::Mac0, head, 0, at),
            Wanted::Sign1 => self.past_array_head(Kind::Sign1, head, 0, at),
            Wanted::Tagged => self.refuse(Reason::WrongTag, 0),
        }
    }

    /// The head of another tag begins here.
    fn begin_tag_head(&mut self, at: u64)
        requires early { at ≤ 9 }
        ensures reads_on { (task : Task) → HasFindings task nothing_so_far self.old
            → ReaderMeans task [] at self.new (λ more. second_head (rules_of H D task) at more) }
    {
        self.head.clear();
        self.phase = Phase::TagHead(TagHead { at });
    }

    /// Takes the next byte of the head after the CWT tag.
    pub(crate) fn tag_head(&mut self, tag_head: TagHead, byte: u8)
        requires phase { self.old.phase ≡ Phase.TagHead tag_head }
        ensures reads_on { (task : Task) (payload : List ℕ) (n : ℕ) (reading : List ℕ → Reading)
            → ReaderMeans task payload n self.old reading
            → ReaderMeans task payload (n + 1) self.new (λ more. reading (byte ∷ more)) }
    {
        let at = tag_head.at;
        match take_bare_head_byte(&mut self.head, byte) {
            HeadStep::More(_) => {}
            HeadStep::Fault(reason) => self.refuse(reason, at),
            HeadStep::Got(head, used) => {
                let kind = cose_tag(self.terms.wanted, &head);
                self.past_tag(kind, at, at + used as u64);
            }
        }
    }

    /// What follows a tag, given its kind or why it is refused.
    fn past_tag(&mut self, kind: Result<Kind, Reason>, tag_at: u64, at: u64)
        requires early { at ≤ 18 }
        ensures reads_on { (task : Task) → HasFindings task nothing_so_far self.old
            → ReaderMeans task [] at self.new
            (λ more. past_tag (rules_of H D task) tag_at kind at more) }
    {
        match kind {
            Ok(kind) => self.begin_array_head(kind, at),
            Err(reason) => self.refuse(reason, tag_at),
        }
    }

    /// The head of the array begins here.
    fn begin_array_head(&mut self, kind: Kind, at: u64)
        requires early { at ≤ 18 }
        ensures reads_on { (task : Task) → HasFindings task nothing_so_far self.old
            → ReaderMeans task [] at self.new (λ more. array_head (rules_of H D task) kind at more) }
    {
        self.head.clear();
        self.phase = Phase::ArrayHead(ArrayHead { kind, at });
    }

    /// Takes the next byte of the array's head.
    pub(crate) fn array_head(&mut self, array_head: ArrayHead, byte: u8)
        requires phase { self.old.phase ≡ Phase.ArrayHead array_head }
        ensures reads_on { (task : Task) (payload : List ℕ) (n : ℕ) (reading : List ℕ → Reading)
            → ReaderMeans task payload n self.old reading
            → ReaderMeans task payload (n + 1) self.new (λ more. reading (byte ∷ more)) }
    {
        let ArrayHead { kind, at } = array_head;
        match take_bare_head_byte(&mut self.head, byte) {
            HeadStep::More(_) => {}
            HeadStep::Fault(reason) => self.refuse(reason, at),
            HeadStep::Got(head, used) => self.past_array_head(kind, head, at, at + used as u64),
        }
    }

    /// What follows the array's head.
    fn past_array_head(&mut self, kind: Kind, head: Head, head_at: u64, at: u64)
        requires early { at ≤ 27 }
        ensures reads_on { (task : Task) → HasFindings task nothing_so_far self.old
            → ReaderMeans task [] at self.new
            (λ more. past_array_head (rules_of H D task) kind head_at head at more) }
    {
        match fault_of_array(&head) {
            Some(reason) => self.refuse(reason, head_at),
            None => self.begin_protected_head(kind, at),
        }
    }
}
