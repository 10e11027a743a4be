// The division of a rectangle: the choice rule, the even half and the parts of a cut, once for every walk.
//
// A walk holds a block in one of two forms. `Placed` has the start on the axes of run and side and two bits for the directions, for walks that
// go from numbers to squares. `Spot` has no start and no direction: a square as (u, v), u along the run and v along the side, for walks that go
// from squares to numbers. No length or coordinate is over 65,535.
#![tactic(auto)]

ghost use Rattle.std.specs.Prelude.{cond, ◌≡◌, ◌≤◌, ◌<◌, ltb};
ghost use Rattle.terms.specs.Terms.{longest_side};
ghost use Rattle.division.specs.declared.Choice.TheVariants.{LongCut, UCut};
ghost use Rattle.division.specs.Division.{choice, even_half, Part, First, Second, B, C, part};
ghost use Rattle.division.specs.Forms.{block, CutBy, stepped_to, Steps, seen_in};

// The choice rule's four cases.
#[derive(Clone, Copy)]
pub enum Choice {
    StraightRun,
    StraightSide,
    LongCut,
    UCut,
}

// The case of a block with lengths a and b.
#[tactic(auto, unfolding(crate::specs::Division::choice))]
pub fn choose(a: u32, b: u32) -> Choice
    requires { (a ≤ longest_side) × (b ≤ longest_side) }
    ensures { result ≡ choice a b }
{
    if b == 1 {
        Choice::StraightRun
    } else if a == 1 {
        Choice::StraightSide
    } else if 3 * b < 2 * a {
        Choice::LongCut
    } else {
        Choice::UCut
    }
}

// Half of a length, made even where the length is over 2: there it is twice ((len + 2) div 4), with no test for odd.
#[tactic(auto, using(crate::proofs::EvenHalf::half_small, crate::proofs::EvenHalf::half_large))]
pub fn even_half(len: u32) -> u32
    requires { len ≤ longest_side }
    ensures { result ≡ even_half len }
{
    either(len <= 2, len / 2, 2 * ((len + 2) / 4))
}

// x or y by a test. It is a function so that the compiler selects and does not branch: with an `if` in `even_half` a lookup took up to 1.13 of the time.
pub fn either(test: bool, x: u32, y: u32) -> u32
    ensures { result ≡ cond test x y }
{
    if test { x } else { y }
}

// n squares on from a coordinate, or back.
pub fn stepped(at: u32, n: u32, back: bool) -> u32
    requires { Steps at n back }
    ensures { result ≡ stepped_to at n back }
{
    if back { at - n } else { at + n }
}

// A block where it stands: its start is `along` on the run's axis and `across` on the side's. The run is along y if it is turned, else along x;
// both directions are negative if it goes back. Two bits and no enum of four directions: a step asks one of them, and a part turns one over.
#[derive(Clone, Copy)]
pub struct Placed {
    pub along: u32,
    pub across: u32,
    pub turned: bool,
    pub back: bool,
    pub a: u32,
    pub b: u32,
}

impl Placed {
    // The long cut's second part, or its first: by a bool, since a descent has it from a comparison.
    #[tactic(auto, using(crate::proofs::PlacedParts::long_block))]
    pub fn long_part(self, second: bool) -> Placed
        requires { CutBy LongCut self }
        ensures { block result ≡ part (cond second Second First) (block self) }
    {
        let e = even_half(self.a);
        let skip = either(second, e, 0);
        Placed {
            along: stepped(self.along, skip, self.back),
            across: self.across,
            turned: self.turned,
            back: self.back,
            a: either(second, self.a - e, e),
            b: self.b,
        }
    }

    // The U cut's part A: up the side, over the first half of the run.
    #[tactic(auto, using(crate::proofs::PlacedParts::a_block))]
    pub fn part_a(self) -> Placed
        requires { CutBy UCut self }
        ensures { block result ≡ part Part.A (block self) }
    {
        Placed {
            along: self.across,
            across: self.along,
            turned: !self.turned,
            back: self.back,
            a: even_half(self.b),
            b: self.a / 2,
        }
    }

    // The U cut's part B: along the whole run, above A and C.
    #[tactic(auto, using(crate::proofs::PlacedParts::b_block))]
    pub fn part_b(self) -> Placed
        requires { CutBy UCut self }
        ensures { block result ≡ part B (block self) }
    {
        let e = even_half(self.b);
        Placed {
            along: self.along,
            across: stepped(self.across, e, self.back),
            turned: self.turned,
            back: self.back,
            a: self.a,
            b: self.b - e,
        }
    }

    // The U cut's part C: down the side again, over the rest of the run, from its far corner.
    #[tactic(auto, using(crate::proofs::PlacedParts::c_block))]
    pub fn part_c(self) -> Placed
        requires { CutBy UCut self }
        ensures { block result ≡ part C (block self) }
    {
        let e = even_half(self.b);
        Placed {
            along: stepped(self.across, e - 1, self.back),
            across: stepped(self.along, self.a - 1, self.back),
            turned: !self.turned,
            back: !self.back,
            a: e,
            b: self.a - self.a / 2,
        }
    }
}

// A square of a block with lengths a and b: u along the run, v along the side.
#[derive(Clone, Copy)]
pub struct Spot {
    pub a: u32,
    pub b: u32,
    pub u: u32,
    pub v: u32,
}

impl Spot {
    // The square as the long cut's part that holds it has it.
    #[tactic(auto, using(crate::proofs::Rules::halves))]
    pub fn in_long(self) -> Spot
        requires { (2 ≤ self.a) × (self.u < self.a) × (self.a ≤ longest_side) }
        ensures { result ≡ seen_in (cond (ltb self.u (even_half self.a)) First Second) self }
    {
        let Spot { a, b, u, v } = self;
        let e = even_half(a);
        let first = u < e;
        Spot {
            a: either(first, e, a - e),
            b,
            u: u - either(first, 0, e),
            v,
        }
    }

    // The square as part A has it.
    pub fn in_a(self) -> Spot
        requires { self.b ≤ longest_side }
        ensures { result ≡ seen_in Part.A self }
    {
        let Spot { a, b, u, v } = self;
        Spot {
            a: even_half(b),
            b: a / 2,
            u: v,
            v: u,
        }
    }

    // The square as part B has it.
    #[tactic(auto, using(crate::proofs::Rules::halves))]
    pub fn in_b(self) -> Spot
        requires { (2 ≤ self.b) × (even_half self.b ≤ self.v) × (self.b ≤ longest_side) }
        ensures { result ≡ seen_in B self }
    {
        let Spot { a, b, u, v } = self;
        let e = even_half(b);
        Spot {
            a,
            b: b - e,
            u,
            v: v - e,
        }
    }

    // The square as part C has it.
    pub fn in_c(self) -> Spot
        requires { (self.u < self.a) × (self.v < even_half self.b) × (self.b ≤ longest_side) }
        ensures { result ≡ seen_in C self }
    {
        let Spot { a, b, u, v } = self;
        let e = even_half(b);
        Spot {
            a: e,
            b: a - a / 2,
            u: e - 1 - v,
            v: a - 1 - u,
        }
    }
}
