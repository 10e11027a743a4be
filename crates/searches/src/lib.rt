// From a square of an area down to its number.
#![tactic(auto)]

ghost use Rattle.std.specs.Prelude.{◌≡◌, ◌+◌};
ghost use Rattle.division.specs.declared.Choice.TheVariants.{LongCut, UCut};
ghost use Rattle.division.specs.Division.{square, whole, choice, number_of, blocks_holding};
ghost use Rattle.searches.specs.Searches.{numbered, spot_at, spot_number, spot_blocks, Lying, Leads, Searches};

use division::{Choice, Spot};

// A square's number, and how many blocks of the division hold the square.
#[derive(Clone, Copy)]
pub struct Numbered {
    pub number: u32,
    pub blocks: u32,
}

// A square of a block, and how many numbers of the area come before that block.
#[derive(Clone, Copy)]
struct Sought {
    spot: Spot,
    before: u32,
}

impl Sought {
    // The square as the part of a long cut that holds it has it.
    fn in_long(self) -> Sought
        requires { Lying self.spot self.before × (choice self.spot.a self.spot.b ≡ LongCut) }
        ensures { Leads self.spot self.before result.spot result.before }
    {
        let Sought { spot, before } = self;
        let part = spot.in_long();
        Sought {
            spot: part,
            before: before + (spot.u - part.u) * spot.b,
        }
    }

    // The square as the part of a U cut that holds it has it.
    fn in_u(self) -> Sought
        requires { Lying self.spot self.before × (choice self.spot.a self.spot.b ≡ UCut) }
        ensures { Leads self.spot self.before result.spot result.before }
    {
        let Sought { spot, before } = self;
        let Spot { a, b, u, v } = spot;
        let e = division::even_half(b);
        let to_b = e * (a / 2);
        if e <= v {
            return Sought {
                spot: spot.in_b(),
                before: before + to_b,
            };
        }
        if u < a / 2 {
            return Sought {
                spot: spot.in_a(),
                before,
            };
        }
        Sought {
            spot: spot.in_c(),
            before: before + to_b + a * (b - e),
        }
    }
}

// The number of the square at (u, v) of an a by b block, `before` numbers on, and how many blocks hold it where `above` hold the block. It calls itself on the
// part that holds the square; the block's area falls. The call is the last act, and there are registers for six numbers, so that a search compiles to a loop
// with next to nothing in memory.
#[tactic(auto, using(crate::proofs::PartWithSquare::part_answered))]
fn search(a: u32, b: u32, u: u32, v: u32, before: u32, above: u32) -> Numbered
    requires { Searches (spot_at a b u v) before above }
    ensures { result ≡ numbered (before + spot_number (spot_at a b u v)) (above + spot_blocks (spot_at a b u v)) }
{
    let spot = Spot { a, b, u, v };
    let sought = Sought { spot, before };
    let blocks = above + 1;
    match division::choose(a, b) {
        Choice::StraightRun => Numbered {
            number: before + spot.u,
            blocks,
        },
        Choice::StraightSide => Numbered {
            number: before + spot.v,
            blocks,
        },
        Choice::LongCut => {
            let Sought { spot, before } = sought.in_long();
            search(spot.a, spot.b, spot.u, spot.v, before, blocks)
        }
        Choice::UCut => {
            let Sought { spot, before } = sought.in_u();
            search(spot.a, spot.b, spot.u, spot.v, before, blocks)
        }
    }
}

// The number of an area's square, and how many blocks hold the square.
pub fn number_at(w: u32, h: u32, x: u32, y: u32) -> Numbered
    requires { Lying (spot_at w h x y) 0 }
    ensures { result ≡ numbered (number_of (whole w h) (square x y)) (blocks_holding (whole w h) (square x y)) }
{
    search(w, h, x, y, 0, 0)
}
