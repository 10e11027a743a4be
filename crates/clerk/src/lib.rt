// The order clerk: the area in force; a line in, a reply out.
#![tactic(auto)]

ghost use Rattle.std.specs.Prelude.{[], ◌∷◌, ◌≡◌, ◌*◌, pos, None, ok_or};
ghost use Rattle.terms.specs.declared.Refusal.TheVariants as Refusals;
ghost use Rattle.terms.specs.Terms.{at_post, signed};
ghost use Rattle.lines.specs.Lines.{begins_setting};
ghost use Rattle.curve.specs.Lookups.{number_to_square_at, square_to_number_at, finish_square_at};
ghost use Rattle.clerk.specs.Clerk.{AreaSaid, Cell, Number, said, from_call, origin_reply, reply_to};
ghost use Rattle.clerk.specs.Clerk.{clerk_under, counted, with_origin, clerk_after, after, reply};

use curve::{FoundSquare, Square};
use lines::Request;
use searches::Numbered;
use terms::{Area, Refusal};

// A clerk: the area in force with its origin, if there is one. Anyone may make one by hand, with any area: it counts as that area does (`counted`).
#[derive(Clone, Copy, Debug, PartialEq, Eq)]
pub struct Clerk {
    pub area: Option<Area>,
}

// What an accepted line is answered.
#[derive(Clone, Copy, Debug, PartialEq, Eq)]
pub enum Reply {
    AreaSet {
        w: u32,
        h: u32,
        squares: u32,
        x: i32,
        y: i32,
    },
    OriginSet {
        ox: i32,
        oy: i32,
    },
    Cell {
        x: i32,
        y: i32,
        blocks: u32,
    },
    Number {
        number: u32,
        blocks: u32,
    },
}

// The clerk after a line, and the reply to it, or why it is refused.
#[derive(Clone, Copy, Debug, PartialEq, Eq)]
pub struct Handled {
    pub clerk: Clerk,
    pub reply: Result<Reply, Refusal>,
}

// The reply to an AREA line.
fn area_reply(w: u32, h: u32) -> Result<Reply, Refusal>
    ensures { said result ≡ from_call AreaSaid (pos w ∷ pos h ∷ pos (w * h) ∷ []) (finish_square_at (at_post w h)) }
{
    let Square { x, y } = curve::finish_square(terms::at_post(w, h))?;
    Ok(Reply::AreaSet {
        w,
        h,
        squares: w * h,
        x,
        y,
    })
}

// The reply to an ORIGIN line under an area.
fn origin_reply(ox: i32, oy: i32) -> Result<Reply, Refusal>
    ensures { said result ≡ origin_reply ox oy }
{
    terms::guard(terms::accepts_origin(ox, oy), Refusal::OriginLimit)?;
    Ok(Reply::OriginSet { ox, oy })
}

// The reply to an N line under an area.
fn cell_reply(area: Area, i: u32) -> Result<Reply, Refusal>
    ensures { said result ≡ from_call Cell [] (number_to_square_at area i) }
{
    let FoundSquare { x, y, blocks } = curve::number_to_square(area, i)?;
    Ok(Reply::Cell { x, y, blocks })
}

// The reply to an S line under an area.
#[tactic(auto, unfolding(terms::specs::Terms::in_signs))]
fn number_reply(area: Area, x: i32, y: i32) -> Result<Reply, Refusal>
    ensures { said result ≡ from_call Number [] (signed (square_to_number_at area x y)) }
{
    let Numbered { number, blocks } = curve::square_to_number(area, x, y)?;
    Ok(Reply::Number { number, blocks })
}

// The clerk with an area in force, or with none where the area or its origin is not accepted.
#[tactic(auto, using(terms::proofs::Limits::on_grid, terms::proofs::Limits::off_grid))]
pub fn clerk_under(area: Area) -> Clerk
    ensures { result.area ≡ clerk_under area }
{
    match terms::admit_grid(area) {
        Ok(()) => Clerk { area: Some(area) },
        Err(_) => Clerk::new(),
    }
}

impl Clerk {
    // A clerk with no area in force.
    pub fn new() -> Clerk
        ensures { result.area ≡ None }
    {
        Clerk { area: None }
    }

    // The clerk as it counts: one made by hand may hold an area that is not accepted.
    fn counted(self) -> Clerk
        ensures { result.area ≡ counted self.area }
    {
        match self.area {
            Some(area) => clerk_under(area),
            None => self,
        }
    }

    // The area in force, which some requests need.
    fn in_force(self) -> Result<Area, Refusal>
        ensures { result ≡ ok_or self.area Refusals.NoArea }
    {
        self.area.ok_or(Refusal::NoArea)
    }

    // The reply to a request.
    fn reply_to(self, asked: Result<Request, Refusal>) -> Result<Reply, Refusal>
        ensures { said result ≡ reply_to self.area asked }
    {
        match asked? {
            Request::SetArea { w, h } => area_reply(w, h),
            Request::SetOrigin { ox, oy } => {
                self.in_force()?;
                origin_reply(ox, oy)
            }
            Request::AskNumber { i } => cell_reply(self.in_force()?, i),
            Request::AskSquare { x, y } => number_reply(self.in_force()?, x, y),
        }
    }

    // The clerk after an ORIGIN line, which sets the origin or leaves no area.
    fn with_origin(self, ox: i32, oy: i32) -> Clerk
        ensures { result.area ≡ with_origin self.area ox oy }
    {
        match self.area {
            Some(area) if terms::accepts_origin(ox, oy) => Clerk {
                area: Some(Area { ox, oy, ..area }),
            },
            _ => Clerk::new(),
        }
    }

    // The clerk after a line.
    fn after(self, line: &[u8], asked: Result<Request, Refusal>) -> Clerk
        ensures { result.area ≡ clerk_after self.area (begins_setting line.now) asked }
    {
        match asked {
            Ok(Request::SetArea { w, h }) => clerk_under(terms::at_post(w, h)),
            Ok(Request::SetOrigin { ox, oy }) => self.with_origin(ox, oy),
            Err(_) if lines::begins_setting(line) => Clerk::new(),
            _ => self,
        }
    }

    // Takes a line, and hands the clerk back with the reply.
    pub fn handle(self, line: &[u8]) -> Handled
        ensures clerk { result.clerk.area ≡ after self.area line.now }
        ensures reply { said result.reply ≡ reply self.area line.now }
    {
        let before = self.counted();
        let asked = lines::request_of(line);
        Handled {
            clerk: before.after(line, asked),
            reply: before.reply_to(asked),
        }
    }
}
