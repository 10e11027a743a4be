// Fills a block of the division into a table: the cuts hand their parts to each other, the leaves are below.
#![tactic(auto)]

ghost use Rattle.std.specs.Prelude.{◌≡◌, length};
ghost use Rattle.division.specs.declared.Choice.TheVariants.{LongCut, UCut};
ghost use Rattle.division.specs.Division.{choice, blocks};
ghost use Rattle.division.specs.Forms.{block};
ghost use Rattle.leaves.specs.Walk.{filled_with, Fits};

use division::{Choice, Placed};
use leaves::{Kind, Numbered};
use terms::Area;

// A block by its case. It and the two cuts call each other; the block's area falls.
#[cycle(fill)]
pub fn fill_block<T: Kind>(table: &mut [u32], k: Numbered, area: Area) -> u64
    requires { Fits T.BY_SQUARE area.w area.h (length table.old) (block k.placed) k.first }
    ensures table { table.new ≡ filled_with T.BY_SQUARE area.w table.old (block k.placed) k.first }
    ensures count { result ≡ length (blocks (block k.placed)) }
{
    let Placed { a, b, .. } = k.placed;
    match division::choose(a, b) {
        Choice::StraightRun => leaves::fill_straight::<T>(table, k, area),
        Choice::StraightSide => leaves::fill_straight::<T>(table, k.exchanged(), area),
        Choice::LongCut => fill_long_cut::<T>(table, k, area),
        Choice::UCut if a == 2 && b <= 3 => leaves::fill_leaf::<T>(table, k, area),
        Choice::UCut => fill_u_cut::<T>(table, k, area),
    }
}

// The two parts of a long cut. By number the second repeats the first where it is as long: it is copied.
#[cycle(fill)]
fn fill_long_cut<T: Kind>(table: &mut [u32], k: Numbered, area: Area) -> u64
    requires { Fits T.BY_SQUARE area.w area.h (length table.old) (block k.placed) k.first × (choice k.placed.a k.placed.b ≡ LongCut) }
    ensures table { table.new ≡ filled_with T.BY_SQUARE area.w table.old (block k.placed) k.first }
    ensures count { result ≡ length (blocks (block k.placed)) }
{
    let near = k.long_part(false);
    let far = k.long_part(true);
    let first = fill_block::<T>(table, near, area);
    if !T::BY_SQUARE && near.placed.a == far.placed.a {
        copies::fill_again(table, near, far, area, false);
        return first + first + 1;
    }
    let second = fill_block::<T>(table, far, area);
    first + second + 1
}

// The three parts of a U cut. By number C repeats A, turned round, where the run is even: it is copied.
#[cycle(fill)]
fn fill_u_cut<T: Kind>(table: &mut [u32], k: Numbered, area: Area) -> u64
    requires { Fits T.BY_SQUARE area.w area.h (length table.old) (block k.placed) k.first × (choice k.placed.a k.placed.b ≡ UCut) }
    ensures table { table.new ≡ filled_with T.BY_SQUARE area.w table.old (block k.placed) k.first }
    ensures count { result ≡ length (blocks (block k.placed)) }
{
    let up = k.part_a();
    let a = fill_block::<T>(table, up, area);
    let b = fill_block::<T>(table, k.part_b(), area);
    let down = k.part_c();
    if !T::BY_SQUARE && k.placed.a % 2 == 0 {
        copies::fill_again(table, up, down, area, true);
        return a + b + a + 1;
    }
    let c = fill_block::<T>(table, down, area);
    a + b + c + 1
}
