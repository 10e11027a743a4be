// The blocks that a walk over a table does not cut: straight ones, and those 2 wide and 2 or 3 deep, to which most squares of a large area belong.
#![tactic(auto)]

ghost use Rattle.std.specs.Prelude.{Bool, true, false, cond, ◌≡◌, ◌+◌, ◌-◌, ◌*◌, ◌/◌, ◌≤◌, ◌<◌, length};
ghost use Rattle.terms.specs.Terms.{longest_side, past_32_bits};
ghost use Rattle.division.specs.declared.Choice.TheVariants.{StraightRun, LongCut, UCut};
ghost use Rattle.division.specs.Division.{square, whole, choice, even_half, Part, First, Second, B, C, part, blocks};
ghost use Rattle.division.specs.Division.Inside.{Inside};
ghost use Rattle.division.specs.Forms.{block};
ghost use Rattle.leaves.specs.Walk.{place, Countable, enter_one, filled_with, exchanged, near, far, Fits, none_before, least_one, checked};

use division::Placed;
use terms::Area;

// The kind of a table, which is known when a walk over it is compiled.
pub trait Kind {
    ghost BY_SQUARE: { Bool };

    const BY_SQUARE: bool;
}

// Place i holds the place of square number i.
pub struct ByNumber;

impl Kind for ByNumber {
    ghost BY_SQUARE = { false };

    const BY_SQUARE: bool = false;
}

// A square's place holds its number.
pub struct BySquare;

impl Kind for BySquare {
    ghost BY_SQUARE = { true };

    const BY_SQUARE: bool = true;
}

// A block of the division, whose squares are numbered on from `first`: what a walk goes over.
#[derive(Clone, Copy)]
pub struct Numbered {
    pub placed: Placed,
    pub first: u32,
}

impl Numbered {
    // The whole area, on which a walk begins.
    pub fn whole(area: Area) -> Numbered
        ensures placed { block result.placed ≡ whole area.w area.h }
        ensures first { result.first ≡ 0 }
    {
        let placed = Placed {
            along: 0,
            across: 0,
            turned: false,
            back: false,
            a: area.w,
            b: area.h,
        };
        Numbered { placed, first: 0 }
    }

    // With run and side exchanged.
    pub fn exchanged(self) -> Numbered
        ensures placed { block result.placed ≡ exchanged (block self.placed) }
        ensures first { result.first ≡ self.first }
    {
        let placed = Placed {
            along: self.placed.across,
            across: self.placed.along,
            turned: !self.placed.turned,
            back: self.placed.back,
            a: self.placed.b,
            b: self.placed.a,
        };
        Numbered {
            placed,
            first: self.first,
        }
    }

    // The long cut's second part, or its first.
    pub fn long_part(self, second: bool) -> Numbered
        requires { Countable LongCut self }
        ensures placed { block result.placed ≡ part (cond second Second First) (block self.placed) }
        ensures first { result.first ≡ self.first + cond second (even_half self.placed.a * self.placed.b) 0 }
    {
        let skip = division::even_half(self.placed.a) * self.placed.b;
        Numbered {
            placed: self.placed.long_part(second),
            first: self.first + division::either(second, skip, 0),
        }
    }

    // The U cut's three parts.
    pub fn part_a(self) -> Numbered
        requires { Countable UCut self }
        ensures placed { block result.placed ≡ part Part.A (block self.placed) }
        ensures first { result.first ≡ self.first }
    {
        Numbered {
            placed: self.placed.part_a(),
            first: self.first,
        }
    }

    pub fn part_b(self) -> Numbered
        requires { Countable UCut self }
        ensures placed { block result.placed ≡ part B (block self.placed) }
        ensures first { result.first ≡ self.first + even_half self.placed.b * (self.placed.a / 2) }
    {
        let e = division::even_half(self.placed.b);
        Numbered {
            placed: self.placed.part_b(),
            first: self.first + e * (self.placed.a / 2),
        }
    }

    pub fn part_c(self) -> Numbered
        requires { Countable UCut self }
        ensures placed { block result.placed ≡ part C (block self.placed) }
        ensures first { result.first ≡ self.first + even_half self.placed.b * (self.placed.a / 2)
            + self.placed.a * (self.placed.b - even_half self.placed.b) }
    {
        let e = division::even_half(self.placed.b);
        let to_b = self.first + e * (self.placed.a / 2);
        Numbered {
            placed: self.placed.part_c(),
            first: to_b + self.placed.a * (self.placed.b - e),
        }
    }
}

// A square's place in a table by square.
pub fn place_of(along: u32, across: u32, turned: bool, w: u32) -> u32
    requires { place w (cond turned (square across along) (square along across)) < past_32_bits }
    ensures { result ≡ place w (cond turned (square across along) (square along across)) }
{
    division::either(turned, along, across) * w + division::either(turned, across, along)
}

// Enters square number n, which has the place p.
fn enter<T: Kind>(table: &mut [u32], n: u32, p: u32)
    requires { cond T.BY_SQUARE p n < length table.old }
    ensures { table.new ≡ enter_one T.BY_SQUARE table.old n p }
{
    let i = division::either(T::BY_SQUARE, p, n) as usize;
    table[i] = division::either(T::BY_SQUARE, n, p);
}

// The squares of a straight block, which follow in its run.
pub fn fill_straight<T: Kind>(table: &mut [u32], k: Numbered, area: Area) -> u64
    requires { Fits T.BY_SQUARE area.w area.h (length table.old) (block k.placed) k.first × (choice k.placed.a k.placed.b ≡ StraightRun) }
    ensures table { table.new ≡ filled_with T.BY_SQUARE area.w table.old (block k.placed) k.first }
    ensures count { result ≡ length (blocks (block k.placed)) }
{
    let w = area.w;
    for i in 0..k.placed.a {
        let p = place_of(
            division::stepped(k.placed.along, i, k.placed.back),
            k.placed.across,
            k.placed.turned,
            w,
        );
        enter::<T>(table, k.first + i, p);
    }
    1
}

// Enters two squares, numbered on from n.
fn enter_two<T: Kind>(table: &mut [u32], n: u32, p: u32, q: u32)
    requires { (n + 1 < past_32_bits) × (cond T.BY_SQUARE p n < length table.old) × (cond T.BY_SQUARE q (n + 1) < length table.old) }
    ensures { table.new ≡ enter_one T.BY_SQUARE (enter_one T.BY_SQUARE table.old n p) (n + 1) q }
{
    enter::<T>(table, n, p);
    enter::<T>(table, n + 1, q);
}

// The places of two squares of a block 2 wide, side by side: one on its start's line, one a step along its run.
#[derive(Clone, Copy)]
struct Rung {
    near: u32,
    far: u32,
}

// The two that lie v along its side.
fn rung_at(k: Placed, v: u32, area: Area) -> Rung
    requires { Inside area.w area.h (block k) × (area.w ≤ longest_side) × (area.h ≤ longest_side) × (k.a ≡ 2) × (v < k.b) }
    ensures near { result.near ≡ place area.w (near (block k) v) }
    ensures far { result.far ≡ place area.w (far (block k) v) }
{
    let w = area.w;
    let beyond = division::stepped(k.along, 1, k.back);
    let up = division::stepped(k.across, v, k.back);
    Rung {
        near: place_of(k.along, up, k.turned, w),
        far: place_of(beyond, up, k.turned, w),
    }
}

// A block 2 wide and 2 or 3 deep, at once, up its side and down again: most of a large area's squares lie in one.
pub fn fill_leaf<T: Kind>(table: &mut [u32], k: Numbered, area: Area) -> u64
    requires { Fits T.BY_SQUARE area.w area.h (length table.old) (block k.placed) k.first × (k.placed.a ≡ 2) × (2 ≤ k.placed.b) × (k.placed.b ≤ 3) }
    ensures table { table.new ≡ filled_with T.BY_SQUARE area.w table.old (block k.placed) k.first }
    ensures count { result ≡ length (blocks (block k.placed)) }
{
    let deep = k.placed.b;
    let low = rung_at(k.placed, 0, area);
    let middle = rung_at(k.placed, 1, area);
    enter_two::<T>(table, k.first, low.near, middle.near);
    if deep == 2 {
        enter_two::<T>(table, k.first + 2, middle.far, low.far);
        return 4;
    }
    let high = rung_at(k.placed, 2, area);
    enter_two::<T>(table, k.first + 2, high.near, high.far);
    enter_two::<T>(table, k.first + 4, middle.far, low.far);
    4
}

// A wrong place and the value due there.
#[derive(Clone, Copy, Debug, PartialEq, Eq)]
pub struct Wrong {
    pub place: u32,
    pub due: u32,
}

// Whether nothing wrong was found before a place.
pub fn none_before(place: u32, least: Option<Wrong>) -> bool
    ensures { result ≡ none_before place least }
{
    least.is_none_or(|found| place <= found.place)
}

// The least wrong place so far, with square number n, which has the place p, looked at.
fn compare<T: Kind>(table: &[u32], n: u32, p: u32, least: Option<Wrong>) -> Option<Wrong>
    requires { cond T.BY_SQUARE p n < length table.now }
    ensures { result ≡ least_one T.BY_SQUARE table.now least n p }
{
    let place = division::either(T::BY_SQUARE, p, n);
    let due = division::either(T::BY_SQUARE, n, p);
    if table[place as usize] == due {
        return least;
    }
    match least {
        Some(found) if found.place <= place => least,
        _ => Some(Wrong { place, due }),
    }
}

// The squares of a straight block, which follow in its run.
pub fn check_straight<T: Kind>(
    table: &[u32],
    k: Numbered,
    area: Area,
    so_far: Option<Wrong>,
) -> Option<Wrong>
    requires { Fits T.BY_SQUARE area.w area.h (length table.now) (block k.placed) k.first × (choice k.placed.a k.placed.b ≡ StraightRun) }
    ensures { result ≡ checked T.BY_SQUARE area.w table.now (block k.placed) k.first so_far }
{
    let w = area.w;
    let mut least = so_far;
    for i in 0..k.placed.a {
        let p = place_of(
            division::stepped(k.placed.along, i, k.placed.back),
            k.placed.across,
            k.placed.turned,
            w,
        );
        least = compare::<T>(table, k.first + i, p, least);
    }
    least
}

// Looks at two squares, numbered on from n.
fn compare_two<T: Kind>(
    table: &[u32],
    n: u32,
    p: u32,
    q: u32,
    least: Option<Wrong>,
) -> Option<Wrong>
    requires { (n + 1 < past_32_bits) × (cond T.BY_SQUARE p n < length table.now) × (cond T.BY_SQUARE q (n + 1) < length table.now) }
    ensures { result ≡ least_one T.BY_SQUARE table.now (least_one T.BY_SQUARE table.now least n p) (n + 1) q }
{
    compare::<T>(table, n + 1, q, compare::<T>(table, n, p, least))
}

// A block 2 wide and 2 or 3 deep, at once.
pub fn check_leaf<T: Kind>(
    table: &[u32],
    k: Numbered,
    area: Area,
    so_far: Option<Wrong>,
) -> Option<Wrong>
    requires { Fits T.BY_SQUARE area.w area.h (length table.now) (block k.placed) k.first × (k.placed.a ≡ 2) × (2 ≤ k.placed.b) × (k.placed.b ≤ 3) }
    ensures { result ≡ checked T.BY_SQUARE area.w table.now (block k.placed) k.first so_far }
{
    let deep = k.placed.b;
    let low = rung_at(k.placed, 0, area);
    let middle = rung_at(k.placed, 1, area);
    let first = compare_two::<T>(table, k.first, low.near, middle.near, so_far);
    if deep == 2 {
        return compare_two::<T>(table, k.first + 2, middle.far, low.far, first);
    }
    let high = rung_at(k.placed, 2, area);
    let second = compare_two::<T>(table, k.first + 2, high.near, high.far, first);
    compare_two::<T>(table, k.first + 4, middle.far, low.far, second)
}
