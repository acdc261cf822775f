//! Laws of the definitions that the contracts cite. A law is a function with no run-time effect, whose contract is the law.

ghost use Rattle.cose_text.specs.Printable.{DatesArePrintable, NotationIsPrintable, QuotesArePrintable};
ghost use Rattle.cose_text.specs.Quoted.{QuotesEnd};

use cose_head::laws::read_is_spelling;

/// A reader of quotes stops exactly at the end of a text in quotes.
pub fn quotes_end()
    ensures { QuotesEnd }
{}

/// A text in quotes is of printable ASCII characters alone, and so are the notation of an item and a date.
pub fn is_printable()
    ensures quotes { QuotesArePrintable }
    ensures notation { NotationIsPrintable }
    ensures dates { DatesArePrintable }
{
    // The law that the proof cites: an item that is read is spelled by its bytes.
    read_is_spelling();
}
