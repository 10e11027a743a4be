// A block of a table by number that repeats another one: copied from the table's own earlier places, or compared with them, in one straight loop.
#![tactic(auto)]

ghost use Rattle.std.specs.Prelude.{◌≡◌, ◌≤◌, false, map, length};
ghost use Rattle.terms.specs.Terms.{longest_side};
ghost use Rattle.terms.specs.Telling.{Tells};
ghost use Rattle.division.specs.Division.Inside.{Inside};
ghost use Rattle.division.specs.Forms.{block};
ghost use Rattle.leaves.specs.Walk.{place, filled_with};
ghost use Rattle.copies.specs.Copies.{image, Held, Again};

use division::Placed;
use leaves::Numbered;
use terms::Area;

// How a place of one block leads to the other's: c more, or what is left of c. The difference c of two places may lie below 0: what wraps there wraps back.
#[derive(Clone, Copy)]
pub struct Image {
    pub c: u32,
    pub opposite: bool,
}

impl Image {
    // By the places of the blocks' starts.
    pub fn between(j: Placed, k: Placed, area: Area, opposite: bool) -> Image
        requires { Inside area.w area.h (block j) × Inside area.w area.h (block k) × (area.w ≤ longest_side) × (area.h ≤ longest_side) }
        ensures way { result.«opposite» ≡ «opposite» }
        ensures starts { place area.w (block k).start ≡ image «opposite» result.c (place area.w (block j).start) }
    {
        let w = area.w;
        let p = leaves::place_of(j.along, j.across, j.turned, w);
        let q = leaves::place_of(k.along, k.across, k.turned, w);
        let c = if opposite {
            p.wrapping_add(q)
        } else {
            q.wrapping_sub(p)
        };
        Image { c, opposite }
    }

    // A place of the one block as the other has it.
    pub fn of(self, x: u32) -> u32
        ensures { result ≡ image self.«opposite» self.c x }
    {
        if self.opposite {
            self.c.wrapping_sub(x)
        } else {
            x.wrapping_add(self.c)
        }
    }
}

// Enters the images of earlier places. No turn of the loop waits for another, so that the compiler takes many places at a time. By their numbers: of what
// `iter_mut` lends no proof knows an element afterwards.
fn copy(earlier: &[u32], later: &mut [u32], by: Image)
    requires { length earlier.now ≡ length later.old }
    ensures { later.new ≡ map (image by.«opposite» by.c) earlier.now }
{
    for (i, entry) in earlier.iter().enumerate() {
        later[i] = by.of(*entry);
    }
}

// Whether a copy would enter what stands there. All places are looked at: a walk that could end early would take them one by one, in five times the time.
fn agree(earlier: &[u32], later: &[u32], by: Image) -> bool
    requires { length earlier.now ≡ length later.now }
    ensures { Tells result (later.now ≡ map (image by.«opposite» by.c) earlier.now) }
{
    later.iter().zip(earlier).fold(true, |all, (entry, other)| all & (*entry == by.of(*other)))
}

// Enters block k by copying block j, which it repeats.
pub fn fill_again(table: &mut [u32], j: Numbered, k: Numbered, area: Area, opposite: bool)
    requires { Again area.w area.h table.old (block j.placed) j.first (block k.placed) k.first «opposite» }
    ensures { table.new ≡ filled_with false area.w table.old (block k.placed) k.first }
{
    let image = Image::between(j.placed, k.placed, area, opposite);
    let (from, to) = (j.first as usize, k.first as usize);
    let n = (k.placed.a * k.placed.b) as usize;
    let (before, behind) = table.split_at_mut(to);
    copy(&before[from..from + n], &mut behind[..n], image);
}

// Whether block k stands in the table, by comparing it with block j, which it repeats.
pub fn holds_again(table: &[u32], j: Numbered, k: Numbered, area: Area, opposite: bool) -> bool
    requires { Again area.w area.h table.now (block j.placed) j.first (block k.placed) k.first «opposite» }
    ensures { Tells result (Held area.w table.now (block k.placed) k.first) }
{
    let image = Image::between(j.placed, k.placed, area, opposite);
    let (from, to) = (j.first as usize, k.first as usize);
    let n = (k.placed.a * k.placed.b) as usize;
    agree(&table[from..from + n], &table[to..to + n], image)
}
