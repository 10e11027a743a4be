// Filling and checking tables for a whole area.
#![tactic(auto)]

ghost use Rattle.std.specs.Prelude.{◌≡◌, ◌*◌, length};
ghost use Rattle.terms.specs.Guards.{admitted};
ghost use Rattle.tables.specs.Tables.{table_guards, by_number, by_square, unless_refused, due_by, fill, fill_figures};
ghost use Rattle.tables.specs.Tables.{check, check_figures, fill_at, filled_at, check_at};

use leaves::{ByNumber, BySquare, Kind, Numbered, Wrong};
use terms::{Area, Refusal};

// The area, and then the length of its table, before any place of that is looked at. Refusal 9 never comes, and is not tried.
pub fn admit(area: Area, places: usize) -> Result<(), Refusal>
    ensures { result ≡ admitted (table_guards area.w area.h places) }
{
    terms::admit_area(area)?;
    terms::guard(
        places == area.w as usize * area.h as usize,
        Refusal::TableLength,
    )
}

// Fills a table of either kind for a whole area, and counts its blocks.
fn fill_whole<T: Kind>(area: Area, table: &mut [u32]) -> Result<u64, Refusal>
    ensures answer { fill_figures result ≡ fill area.w area.h table.old }
    ensures table { table.new
        ≡ unless_refused (fill area.w area.h table.old) (due_by T.BY_SQUARE area.w area.h) table.old }
{
    admit(area, table.len())?;
    Ok(fills::fill_block::<T>(table, Numbered::whole(area), area))
}

// Each kind has calls of its own, as it has in C. Place i gets y·w + x of square number i.
pub fn fill_by_number(area: Area, table: &mut [u32]) -> Result<u64, Refusal>
    ensures answer { fill_figures result ≡ fill_at area table.old }
    ensures table { table.new ≡ filled_at area by_number table.old }
{
    fill_whole::<ByNumber>(area, table)
}

// Place y·w + x gets the square's number.
pub fn fill_by_square(area: Area, table: &mut [u32]) -> Result<u64, Refusal>
    ensures answer { fill_figures result ≡ fill_at area table.old }
    ensures table { table.new ≡ filled_at area by_square table.old }
{
    fill_whole::<BySquare>(area, table)
}

// The first wrong place of a table of either kind for a whole area, and the value due there, if it has one.
fn check_whole<T: Kind>(area: Area, table: &[u32]) -> Result<Option<Wrong>, Refusal>
    ensures { check_figures result ≡ check area.w area.h (due_by T.BY_SQUARE area.w area.h) table.now }
{
    admit(area, table.len())?;
    Ok(checks::check_block::<T>(table, Numbered::whole(area), area, None))
}

// Whether place i holds y·w + x of square number i, for every i; else the first place that does not.
pub fn check_by_number(area: Area, table: &[u32]) -> Result<Option<Wrong>, Refusal>
    ensures { check_figures result ≡ check_at area by_number table.now }
{
    check_whole::<ByNumber>(area, table)
}

// Whether place y·w + x holds the square's number, for every square; else the first place that does not.
pub fn check_by_square(area: Area, table: &[u32]) -> Result<Option<Wrong>, Refusal>
    ensures { check_figures result ≡ check_at area by_square table.now }
{
    check_whole::<BySquare>(area, table)
}
