// What every call shares: the area with its origin, the refusals by name and number, and the guards that a call goes through in turn.
#![tactic(auto)]

ghost use Rattle.std.specs.Prelude.{◌≡◌, ◌*◌, ◌-ℤ◌, [], ◌∷◌};
ghost use Rattle.terms.specs.Terms.{length_accepted, lengths_accepted, squares_accepted, refusal_number};
ghost use Rattle.terms.specs.Terms.{offset_accepted, origin_accepted, at_post, natural};
ghost use Rattle.terms.specs.Guards.{◌else◌, admitted, area_guards, grid_guards};

// The longest width or height.
const LONGEST_SIDE: u32 = 65535;

// The most squares of an area: the plotter keeps a square's number in 24 bits.
const MOST_SQUARES: u64 = 16777216;

// How far the x and the y of an origin may lie from the datum post.
const LEAST_OFFSET: i32 = -1000000;

const MOST_OFFSET: i32 = 1000000;

// The least number that has not 32 bits.
pub const PAST_32_BITS: u64 = 4294967296;

// An area's width and height, and its origin: where its first square lies on the site grid.
#[derive(Clone, Copy, Debug, PartialEq, Eq)]
pub struct Area {
    pub w: u32,
    pub h: u32,
    pub ox: i32,
    pub oy: i32,
}

// Why a call or a line is refused, with the refusal's number.
#[derive(Clone, Copy, Debug, PartialEq, Eq)]
pub enum Refusal {
    AreaLimit = 1,
    SquareOutside = 2,
    NumberOutside = 3,
    TableLength = 4,
    NotANumber = 5,
    WrongShape = 6,
    NoArea = 7,
    LongLine = 8,
    TooDeep = 9,
    CornersCrossed = 10,
    NoRoom = 11,
    OriginLimit = 12,
    TooManySquares = 13,
    BadCheck = 14,
    Departure = 15,
}

impl From<Refusal> for u32 {
    ghost from_gives = { λ r n. n ≡ refusal_number r };

    fn from(r: Refusal) -> u32 {
        r as u32
    }
}

// One guard of a call: the call goes on where it holds, and is refused so where it does not.
pub fn guard(holds: bool, refusal: Refusal) -> Result<(), Refusal>
    ensures { result ≡ admitted (holds else refusal ∷ []) }
{
    if holds { Ok(()) } else { Err(refusal) }
}

// Whether a width or a height is within the limit.
fn is_length(n: u32) -> bool
    ensures { result ≡ length_accepted n }
{
    1 <= n && n <= LONGEST_SIDE
}

// Whether both lengths of an area are within the limit.
fn accepts_lengths(area: Area) -> bool
    ensures { result ≡ lengths_accepted area.w area.h }
{
    is_length(area.w) && is_length(area.h)
}

// Whether an area's squares are within the limit. The product of any two 32-bit numbers has 64 bits.
fn accepts_squares(area: Area) -> bool
    ensures { result ≡ squares_accepted (area.w * area.h) }
{
    area.w as u64 * area.h as u64 <= MOST_SQUARES
}

// Whether the x or the y of an origin is within the range.
fn is_offset(o: i32) -> bool
    ensures { result ≡ offset_accepted o }
{
    LEAST_OFFSET <= o && o <= MOST_OFFSET
}

// Whether an origin is within the range.
#[tactic(auto, unfolding(crate::specs::Terms::origin_accepted))]
pub fn accepts_origin(ox: i32, oy: i32) -> bool
    ensures { result ≡ origin_accepted ox oy }
{
    is_offset(ox) && is_offset(oy)
}

// An area whose first square is the datum post's.
pub fn at_post(w: u32, h: u32) -> Area
    ensures { result ≡ at_post w h }
{
    Area { w, h, ox: 0, oy: 0 }
}

// The guards of every call: the lengths, and then the squares.
pub fn admit_area(area: Area) -> Result<(), Refusal>
    ensures { result ≡ admitted (area_guards area.w area.h) }
{
    guard(accepts_lengths(area), Refusal::AreaLimit)?;
    guard(accepts_squares(area), Refusal::TooManySquares)
}

// And of every call that asks or answers squares: the origin after them.
pub fn admit_grid(area: Area) -> Result<(), Refusal>
    ensures { result ≡ admitted (grid_guards area) }
{
    admit_area(area)?;
    guard(accepts_origin(area.ox, area.oy), Refusal::OriginLimit)
}

// How far a place of the site grid lies east or north of the origin, if it does not lie before it. Two 32-bit numbers differ by up to 33 bits.
pub fn distance(v: i32, o: i32) -> Option<u32>
    ensures { result ≡ natural (v -ℤ o) }
{
    u32::try_from(v as i64 - o as i64).ok()
}
