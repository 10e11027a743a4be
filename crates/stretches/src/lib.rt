// A stretch of the table by number: the entries of successive numbers, with no table at hand. The walk is that of a fill, and leaves out blocks that lie wholly
// before the stretch or behind it.
#![tactic(auto)]

ghost use Rattle.std.specs.Prelude.{◌≡◌, ◌+◌, ◌-◌, ◌*◌, ◌≤◌, min, length};
ghost use Rattle.terms.specs.Terms.{longest_side};
ghost use Rattle.division.specs.declared.Choice.TheVariants.{StraightRun, LongCut, UCut};
ghost use Rattle.division.specs.Division.{choice};
ghost use Rattle.division.specs.Forms.{block};
ghost use Rattle.stretches.specs.Stretch.{stretched, Lies, entries_from};

use division::Choice;
use leaves::{ByNumber, Numbered};
use terms::Area;

// How many of n numbers from `at` on lie below a bound.
fn numbers_below(bound: usize, at: u32, n: u32) -> u32
    ensures { result ≡ min n (bound - at) }
{
    (n as usize).min(bound.saturating_sub(at as usize)) as u32
}

// The squares of a straight block that have their numbers in the stretch. The list and its first number are no struct: that would hold a `&mut`, and each call
// would lend it anew.
fn put_straight(out: &mut [u32], first: u32, k: Numbered, area: Area)
    requires { Lies area.w area.h (block k.placed) k.first × (choice k.placed.a k.placed.b ≡ StraightRun) }
    ensures { out.new ≡ stretched first area.w out.old (block k.placed) k.first }
{
    let w = area.w;
    let at = k.first;
    let skip = numbers_below(first as usize, at, k.placed.a);
    let end = numbers_below(first as usize + out.len(), at, k.placed.a);
    for i in skip..end {
        let p = leaves::place_of(
            division::stepped(k.placed.along, i, k.placed.back),
            k.placed.across,
            k.placed.turned,
            w,
        );
        out[(at + i - first) as usize] = p;
    }
}

// A block, unless it lies wholly before the stretch or behind it. One that lies wholly in it is filled, with what repeats copied. It and the two cuts call each
// other; the block's area falls. It is compiled into its callers, so that an area that is one straight block has a loop of its own, made for the directions
// that are known there.
#[cycle(stretch)]
#[inline(always)]
fn stretch_block(out: &mut [u32], first: u32, k: Numbered, area: Area)
    requires { Lies area.w area.h (block k.placed) k.first }
    ensures { out.new ≡ stretched first area.w out.old (block k.placed) k.first }
{
    let at = k.first;
    let n = k.placed.a * k.placed.b;
    if at + n <= first {
        return;
    }
    if first as usize + out.len() <= at as usize {
        return;
    }
    if first <= at && (at - first) as usize + n as usize <= out.len() {
        let in_stretch = Numbered {
            placed: k.placed,
            first: at - first,
        };
        fills::fill_block::<ByNumber>(out, in_stretch, area);
        return;
    }
    match division::choose(k.placed.a, k.placed.b) {
        Choice::StraightRun => put_straight(out, first, k, area),
        Choice::StraightSide => put_straight(out, first, k.exchanged(), area),
        Choice::LongCut => stretch_long_cut(out, first, k, area),
        Choice::UCut => stretch_u_cut(out, first, k, area),
    }
}

// The two parts of a long cut.
#[cycle(stretch)]
fn stretch_long_cut(out: &mut [u32], first: u32, k: Numbered, area: Area)
    requires { Lies area.w area.h (block k.placed) k.first × (choice k.placed.a k.placed.b ≡ LongCut) }
    ensures { out.new ≡ stretched first area.w out.old (block k.placed) k.first }
{
    stretch_block(out, first, k.long_part(false), area);
    stretch_block(out, first, k.long_part(true), area);
}

// The three parts of a U cut.
#[cycle(stretch)]
fn stretch_u_cut(out: &mut [u32], first: u32, k: Numbered, area: Area)
    requires { Lies area.w area.h (block k.placed) k.first × (choice k.placed.a k.placed.b ≡ UCut) }
    ensures { out.new ≡ stretched first area.w out.old (block k.placed) k.first }
{
    stretch_block(out, first, k.part_a(), area);
    stretch_block(out, first, k.part_b(), area);
    stretch_block(out, first, k.part_c(), area);
}

// The entries of the numbers from `first` on, as many as there are places for.
pub fn stretch(area: Area, first: u32, out: &mut [u32])
    requires { (1 ≤ area.w) × (area.w ≤ longest_side) × (1 ≤ area.h) × (area.h ≤ longest_side) × (first + length out.old ≤ area.w * area.h) }
    ensures { out.new ≡ entries_from area.w area.h first (length out.old) }
{
    stretch_block(out, first, Numbered::whole(area), area);
}
