// From a number of an area down to its square.
#![tactic(auto)]

ghost use Rattle.std.specs.Prelude.{◌≡◌, ◌+◌, cond};
ghost use Rattle.division.specs.declared.Choice.TheVariants.{LongCut, UCut};
ghost use Rattle.division.specs.Division.{square, whole, choice, square_of, blocks_holding};
ghost use Rattle.division.specs.Forms.{block};
ghost use Rattle.descents.specs.Descents.{held, HasNumber, Enters, Descends};

use division::{Choice, Placed};

// A square, and how many blocks of the division hold it.
#[derive(Clone, Copy)]
pub struct Held {
    pub x: u32,
    pub y: u32,
    pub blocks: u32,
}

// A number of a block.
#[derive(Clone, Copy)]
struct Sought {
    block: Placed,
    i: u32,
}

impl Sought {
    // The number as the part of a long cut that has it has it.
    fn in_long(self) -> Sought
        requires { HasNumber (block self.block) self.i × (choice self.block.a self.block.b ≡ LongCut) }
        ensures { Enters (block self.block) self.i (block result.block) result.i }
    {
        let Sought { block, i } = self;
        let e = division::even_half(block.a);
        let second = e * block.b <= i;
        Sought {
            block: block.long_part(second),
            i: i - division::either(second, e, 0) * block.b,
        }
    }

    // The number as the part of a U cut that has it has it.
    fn in_u(self) -> Sought
        requires { HasNumber (block self.block) self.i × (choice self.block.a self.block.b ≡ UCut) }
        ensures { Enters (block self.block) self.i (block result.block) result.i }
    {
        let Sought { block, i } = self;
        let e = division::even_half(block.b);
        let to_b = e * (block.a / 2);
        if i < to_b {
            return Sought {
                block: block.part_a(),
                i,
            };
        }
        let to_c = to_b + block.a * (block.b - e);
        if i < to_c {
            return Sought {
                block: block.part_b(),
                i: i - to_b,
            };
        }
        Sought {
            block: block.part_c(),
            i: i - to_c,
        }
    }
}

// The square at these places on the axes of run and side, with how many blocks hold it.
fn held_at(along: u32, across: u32, turned: bool, blocks: u32) -> Held
    ensures { result ≡ held (cond turned (square across along) (square along across)) blocks }
{
    Held {
        x: division::either(turned, across, along),
        y: division::either(turned, along, across),
        blocks,
    }
}

// How many blocks hold the square of a block's number i where `above` hold the block, whose start is that square in the end. It calls itself on the part that
// has the number, which takes the block's place; the area falls. The call is the last act and returns one number, so that a descent compiles to a loop: a
// square with its count would be copied after the call.
#[tactic(auto, using(crate::proofs::PartWithNumber::part_answered))]
fn descend(place: &mut Placed, i: u32, above: u32) -> u32
    requires { Descends (block place.old) i above }
    ensures square { (block place.new).start ≡ square_of (block place.old) i }
    ensures count { result ≡ above + blocks_holding (block place.old) (square_of (block place.old) i) }
{
    let k = *place;
    let sought = Sought { block: k, i };
    let blocks = above + 1;
    match division::choose(k.a, k.b) {
        Choice::StraightRun => {
            place.along = division::stepped(k.along, i, k.back);
            blocks
        }
        Choice::StraightSide => {
            place.across = division::stepped(k.across, i, k.back);
            blocks
        }
        Choice::LongCut => {
            let part = sought.in_long();
            *place = part.block;
            descend(place, part.i, blocks)
        }
        Choice::UCut => {
            let part = sought.in_u();
            *place = part.block;
            descend(place, part.i, blocks)
        }
    }
}

// The square of an area's number, and how many blocks hold it.
pub fn square_at(w: u32, h: u32, number: u32) -> Held
    requires { HasNumber (whole w h) number }
    ensures { result ≡ held (square_of (whole w h) number) (blocks_holding (whole w h) (square_of (whole w h) number)) }
{
    let mut place = Placed {
        along: 0,
        across: 0,
        turned: false,
        back: false,
        a: w,
        b: h,
    };
    let blocks = descend(&mut place, number, 0);
    let Placed {
        along,
        across,
        turned,
        ..
    } = place;
    held_at(along, across, turned, blocks)
}
