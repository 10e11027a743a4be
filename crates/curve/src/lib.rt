// Single lookups: from a number to its square, from a square to its number, and the finish square. Squares are those of the site grid: signed, and counted from
// the datum post.
#![tactic(auto)]

ghost use Rattle.std.specs.Prelude.{true, false, [], ◌∷◌, ◌≡◌, ◌-◌, ◌*◌, ◌≤◌, leb, pos, ◌+ℤ◌, IfOk, IfErr};
ghost use Rattle.terms.specs.declared.Refusal.TheVariants.{SquareOutside, TooDeep};
ghost use Rattle.terms.specs.Terms.{longest_side, most_blocks, offset_accepted, accepted};
ghost use Rattle.terms.specs.Guards.{◌else◌, admitted};
ghost use Rattle.division.specs.Division.{square, whole, square_of};
ghost use Rattle.curve.specs.Lookups.{inside, old_square, number_to_square_at, square_to_number_at, finish_square_at};
ghost use Rattle.curve.specs.Lookups.{square_figures, number_figures, finish_figures};
ghost use Rattle.curve.specs.Placing.{Places};

use descents::Held;
use searches::Numbered;
use terms::{Area, Refusal};

// The most blocks of the division that a lookup opens.
const MOST_BLOCKS: u32 = 64;

// A square of the site grid.
#[derive(Clone, Copy, Debug, PartialEq, Eq)]
pub struct Square {
    pub x: i32,
    pub y: i32,
}

// A number's square on the site grid, and how many blocks of the division hold it.
#[derive(Clone, Copy, Debug, PartialEq, Eq)]
pub struct FoundSquare {
    pub x: i32,
    pub y: i32,
    pub blocks: u32,
}

// A square counted from the area's own corner. Two types keep the two ways of counting apart, which a type parameter would tell by the sign alone.
#[derive(Clone, Copy)]
struct OldSquare {
    x: u32,
    y: u32,
}

// A place on the site grid, so far east or north of the origin.
fn shifted(o: i32, d: u32) -> i32
    requires { (offset_accepted o ≡ true) × (d ≤ longest_side) }
    ensures { result ≡ o +ℤ pos d }
{
    o + d as i32
}

// What was found in an area, moved by its origin.
fn on_grid(area: Area, held: Held) -> FoundSquare
    requires { Places area held.x held.y }
    ensures { result
        ≡ record { x = area.ox +ℤ pos held.x; y = area.oy +ℤ pos held.y; blocks = held.blocks } }
{
    FoundSquare {
        x: shifted(area.ox, held.x),
        y: shifted(area.oy, held.y),
        blocks: held.blocks,
    }
}

// Whether so few blocks hold a square that a lookup may answer.
fn admit_blocks(blocks: u32) -> Result<(), Refusal>
    ensures { result ≡ admitted (leb blocks most_blocks else TooDeep ∷ []) }
{
    terms::guard(blocks <= MOST_BLOCKS, Refusal::TooDeep)
}

// A square of the site grid counted from the area's own corner, if it lies in the area.
fn in_area(area: Area, x: i32, y: i32) -> Result<OldSquare, Refusal>
    ensures inside { IfOk result (λ s. (inside area x y ≡ true) × (square s.x s.y ≡ old_square area x y)) }
    ensures outside { IfErr result (λ r. (inside area x y ≡ false) × (r ≡ SquareOutside)) }
{
    match (terms::distance(x, area.ox), terms::distance(y, area.oy)) {
        (Some(u), Some(v)) if u < area.w && v < area.h => Ok(OldSquare { x: u, y: v }),
        _ => Err(Refusal::SquareOutside),
    }
}

// The square of a number of an area, and how many blocks of the division hold it.
#[tactic(auto, using(crate::proofs::Answers::number_told))]
pub fn number_to_square(area: Area, number: u32) -> Result<FoundSquare, Refusal>
    ensures { square_figures result ≡ number_to_square_at area number }
{
    terms::admit_grid(area)?;
    let squares = area.w as u64 * area.h as u64;
    terms::guard((number as u64) < squares, Refusal::NumberOutside)?;
    let held = descents::square_at(area.w, area.h, number);
    admit_blocks(held.blocks)?;
    Ok(on_grid(area, held))
}

// The number of a square of an area, and how many blocks of the division hold it.
#[tactic(auto, using(crate::proofs::Answers::square_told))]
pub fn square_to_number(area: Area, x: i32, y: i32) -> Result<Numbered, Refusal>
    ensures { number_figures result ≡ square_to_number_at area x y }
{
    terms::admit_grid(area)?;
    let square = in_area(area, x, y)?;
    let found = searches::number_at(area.w, area.h, square.x, square.y);
    admit_blocks(found.blocks)?;
    Ok(found)
}

// The square of the last number. The area's lengths tell it, so that no block has to be opened.
#[tactic(auto, using(crate::proofs::Finish::where_it_ends))]
fn last_square(w: u32, h: u32) -> OldSquare
    requires { accepted w h ≡ true }
    ensures { square result.x result.y ≡ square_of (whole w h) (w * h - 1) }
{
    if w == 1 {
        return OldSquare { x: 0, y: h - 1 };
    }
    if h == 2 {
        return OldSquare {
            x: w - 1 - w % 2,
            y: 0,
        };
    }
    OldSquare { x: w - 1, y: 0 }
}

// The finish square, which is the square of the last number.
#[tactic(auto, using(crate::proofs::Answers::finish_off_grid))]
pub fn finish_square(area: Area) -> Result<Square, Refusal>
    ensures { finish_figures result ≡ finish_square_at area }
{
    terms::admit_grid(area)?;
    let last = last_square(area.w, area.h);
    Ok(Square {
        x: shifted(area.ox, last.x),
        y: shifted(area.oy, last.y),
    })
}
