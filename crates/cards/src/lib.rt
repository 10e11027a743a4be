// Cards: how long an area's card is, writing its table as one, and reading one into a table.
#![tactic(auto)]

ghost use Rattle.std.specs.Prelude.{true, ◌≡◌, ◌*◌, length, IfErr};
ghost use Rattle.terms.specs.Terms.{accepted};
ghost use Rattle.terms.specs.Telling.{Tells};
ghost use Rattle.tables.specs.Tables.{due_by};
ghost use Rattle.cards.specs.declared.Unread.TheVariants.{Refused};
ghost use Rattle.cards.specs.Cards.{length_figures, measure_at, write_figures, write_at, file_after_at};
ghost use Rattle.cards.specs.Cards.{read_figures, read_at, table_after_at};
ghost use Rattle.cards.specs.Fitting.{by_square, known, says_right, TellsBlock};

use leaves::Wrong;
use terms::{Area, Refusal};

// The kinds of table that a card may have, by their numbers on it.
#[derive(Clone, Copy, Debug, PartialEq, Eq)]
enum Kind {
    ByNumber = 1,
    BySquare = 2,
}

impl TryFrom<u32> for Kind {
    type Error = Refusal;

    ghost try_from_gives = { λ kind r. r ≡ known kind };

    fn try_from(kind: u32) -> Result<Kind, Refusal> {
        match kind {
            1 => Ok(Kind::ByNumber),
            2 => Ok(Kind::BySquare),
            _ => Err(Refusal::Departure),
        }
    }
}

// Why a card is not read: the first block with a bad check, or another refusal.
#[derive(Clone, Copy, Debug, PartialEq, Eq)]
pub enum Unread {
    BadCheck { block: u64 },
    Refused(Refusal),
}

impl From<Refusal> for Unread {
    ghost from_gives = { λ r u. u ≡ Refused r };

    fn from(r: Refusal) -> Unread {
        Unread::Refused(r)
    }
}

// How many bytes a file must have to be an area's card, of either kind.
pub fn card_length(area: Area) -> Result<u64, Refusal>
    ensures { length_figures result ≡ measure_at area }
{
    terms::admit_area(area)?;
    Ok(layouts::bytes_for(area))
}

// Whether a check found its table right.
fn says_right(answer: Result<Option<Wrong>, Refusal>) -> bool
    ensures { result ≡ says_right answer }
{
    matches!(answer, Ok(None))
}

// Whether a table is the one that is due to its kind.
fn is_right(area: Area, kind: Kind, table: &[u32]) -> bool
    requires { (accepted area.w area.h ≡ true) × (length table.now ≡ area.w * area.h) }
    ensures { Tells result (table.now ≡ due_by (by_square kind) area.w area.h) }
{
    match kind {
        Kind::ByNumber => says_right(tables::check_by_number(area, table)),
        Kind::BySquare => says_right(tables::check_by_square(area, table)),
    }
}

// Writes an area's right table as a card, into a file of the layout's length. The kind is any number, and what is none is refused in its turn. Refusal 9 never
// comes, and is not tried.
pub fn write_card(area: Area, kind: u32, table: &[u32], file: &mut [u8]) -> Result<(), Refusal>
    ensures answer { write_figures result ≡ write_at area kind table.now file.old }
    ensures file { file.new ≡ file_after_at area kind table.now file.old }
{
    tables::admit(area, table.len())?;
    terms::guard(
        file.len() as u64 == layouts::bytes_for(area),
        Refusal::TableLength,
    )?;
    let known = Kind::try_from(kind)?;
    terms::guard(is_right(area, known, table), Refusal::Departure)?;
    layouts::write_table(file, area, kind, table);
    Ok(())
}

// Reads a card of an area's right table into a lent table. The whole file is judged before a place of the table is written.
pub fn read_card(area: Area, kind: u32, file: &[u8], table: &mut [u32]) -> Result<(), Unread>
    ensures answer { read_figures result ≡ read_at area kind file.now table.old }
    ensures block { IfErr result TellsBlock }
    ensures table { table.new ≡ table_after_at area kind file.now table.old }
{
    tables::admit(area, table.len())?;
    if let Some(bad) = sectors::first_bad(file) {
        return Err(Unread::BadCheck { block: bad as u64 });
    }
    Kind::try_from(kind)?;
    terms::guard(layouts::is_card(file, area, kind), Refusal::Departure)?;
    layouts::read_table(file, table);
    Ok(())
}
