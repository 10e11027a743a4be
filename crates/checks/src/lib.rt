// Checks a block of the division in a table: the walk is that of a fill, and hands on the least wrong place where a fill enters squares.
#![tactic(auto)]

ghost use Rattle.std.specs.Prelude.{false, cond, ◌≡◌, length};
ghost use Rattle.division.specs.declared.Choice.TheVariants.{LongCut, UCut};
ghost use Rattle.division.specs.Division.{choice};
ghost use Rattle.division.specs.Forms.{block};
ghost use Rattle.leaves.specs.Walk.{none_before, checked, Fits};

use division::{Choice, Placed};
use leaves::{Kind, Numbered, Wrong};
use terms::Area;

// A block by its case. By number what was found before the block stays the least, and nothing more is looked at. It and the two cuts call each other; the
// block's area falls.
#[cycle(check)]
pub fn check_block<T: Kind>(
    table: &[u32],
    k: Numbered,
    area: Area,
    so_far: Option<Wrong>,
) -> Option<Wrong>
    requires { Fits T.BY_SQUARE area.w area.h (length table.now) (block k.placed) k.first }
    ensures { result ≡ checked T.BY_SQUARE area.w table.now (block k.placed) k.first so_far }
{
    if !T::BY_SQUARE && !leaves::none_before(k.first, so_far) {
        return so_far;
    }
    let Placed { a, b, .. } = k.placed;
    match division::choose(a, b) {
        Choice::StraightRun => leaves::check_straight::<T>(table, k, area, so_far),
        Choice::StraightSide => leaves::check_straight::<T>(table, k.exchanged(), area, so_far),
        Choice::LongCut => check_long_cut::<T>(table, k, area, so_far),
        Choice::UCut if a == 2 && b <= 3 => leaves::check_leaf::<T>(table, k, area, so_far),
        Choice::UCut => check_u_cut::<T>(table, k, area, so_far),
    }
}

// Whether a part, alike to another before it, may be compared with that: by number, where nothing before it is wrong.
fn comparable<T: Kind>(alike: bool, part: Numbered, least: Option<Wrong>) -> bool
    ensures { result ≡ cond T.BY_SQUARE false (cond alike (none_before part.first least) false) }
{
    !T::BY_SQUARE && alike && leaves::none_before(part.first, least)
}

// The two parts of a long cut. By number the second repeats the first where it is as long: if it agrees with it, nothing in it is wrong.
#[cycle(check)]
fn check_long_cut<T: Kind>(
    table: &[u32],
    k: Numbered,
    area: Area,
    so_far: Option<Wrong>,
) -> Option<Wrong>
    requires { Fits T.BY_SQUARE area.w area.h (length table.now) (block k.placed) k.first × (choice k.placed.a k.placed.b ≡ LongCut) }
    ensures { result ≡ checked T.BY_SQUARE area.w table.now (block k.placed) k.first so_far }
{
    let near = k.long_part(false);
    let far = k.long_part(true);
    let first = check_block::<T>(table, near, area, so_far);
    if comparable::<T>(near.placed.a == far.placed.a, far, first)
        && copies::holds_again(table, near, far, area, false)
    {
        return first;
    }
    check_block::<T>(table, far, area, first)
}

// The three parts of a U cut. By number C repeats A, turned round, where the run is even.
#[cycle(check)]
fn check_u_cut<T: Kind>(
    table: &[u32],
    k: Numbered,
    area: Area,
    so_far: Option<Wrong>,
) -> Option<Wrong>
    requires { Fits T.BY_SQUARE area.w area.h (length table.now) (block k.placed) k.first × (choice k.placed.a k.placed.b ≡ UCut) }
    ensures { result ≡ checked T.BY_SQUARE area.w table.now (block k.placed) k.first so_far }
{
    let up = k.part_a();
    let down = k.part_c();
    let a = check_block::<T>(table, up, area, so_far);
    let b = check_block::<T>(table, k.part_b(), area, a);
    if comparable::<T>(k.placed.a % 2 == 0, down, b)
        && copies::holds_again(table, up, down, area, true)
    {
        return b;
    }
    check_block::<T>(table, down, area, b)
}
