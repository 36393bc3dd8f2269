// What comes before a run: the arguments, the table of standards, the book to begin with. Where one of them is refused, or
// cannot be read, there is no run.
ghost use Rattle.std.specs.Prelude.{◌≡◌};
ghost use Rattle.credit_book.specs.Start.{PreparedBy, refusal_of};

use crate::arguments::Asked;
use crate::book_file::first_book;
use crate::files::Unusable;
use crate::std_file::load_std_file;
use book::answers::Refusal;
use book::ledger::Book;
use figuring::tables::Table;

// What a run begins with: the names that are asked for, the table of std.txt where there is one, and the book.
#[derive(Clone, Copy)]
pub struct Start {
    pub asked: Asked,
    pub table: Option<Table>,
    pub book: Book,
}

// Why there is no run: the arguments are not known, or the file of the table or of the book gives none.
#[derive(Clone, Copy)]
pub enum Halt {
    Arguments,
    Table(Unusable),
    Book(Unusable),
}

impl Halt {
    // The refusal that is answered, where a text is refused. All else was told.
    pub fn refusal(self) -> Option<Refusal>
        ensures { result ≡ refusal_of self }
    {
        match self {
            Halt::Table(Unusable::Refused(why)) | Halt::Book(Unusable::Refused(why)) => Some(why),
            _ => None,
        }
    }
}

pub fn prepare(rt: HostRuntime, asked: Option<Asked>) -> Result<Start, Halt>
    ensures { PreparedBy asked result }
{
    let Some(asked) = asked else {
        let _ = eprintln!(rt; "credit-book: takes --read FILE and --write FILE");
        return Err(Halt::Arguments);
    };
    let table = load_std_file(rt).map_err(Halt::Table)?;
    let book = first_book(rt, asked.read).map_err(Halt::Book)?;
    Ok(Start { asked, table, book })
}
