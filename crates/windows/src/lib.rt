// The numbers of a window's squares, as runs.
#![tactic(auto)]

ghost use Rattle.std.specs.Prelude.{true, false, [], ◌≡◌, ◌-ℤ◌, IfSome, IfNone, IfOk, IfErr, Err};
ghost use Rattle.terms.specs.Terms.{below, distance_of};
ghost use Rattle.terms.specs.Guards.{granted, admitted, first};
ghost use Rattle.windows.specs.declared.Unwritten.TheVariants.{Refused};
ghost use Rattle.windows.specs.Windows.{uncrossed, old_corners, corners_inside, window_guards, runs_for_window_at, slice_after_at, runs_figures};
ghost use Rattle.windows.specs.Within.{Lies, within_figures, within_slice};

use panes::Pane;
use terms::{Area, Refusal};

// The squares with x from x0 to x1 and y from y0 to y1, ends included, on the site grid.
#[derive(Clone, Copy, Debug, PartialEq, Eq)]
pub struct Window {
    pub x0: i32,
    pub y0: i32,
    pub x1: i32,
    pub y1: i32,
}

// A window's corners, counted from the area's own corner.
#[derive(Clone, Copy)]
struct Corners {
    x0: u32,
    y0: u32,
    x1: u32,
    y1: u32,
}

// Why a window's runs are not written: the slice has no room for so many, or the call is refused.
#[derive(Clone, Copy, Debug, PartialEq, Eq)]
pub enum Unwritten {
    NoRoom { count: u32 },
    Refused(Refusal),
}

impl From<Refusal> for Unwritten {
    ghost from_gives = { λ r u. u ≡ Refused r };

    fn from(r: Refusal) -> Unwritten {
        Unwritten::Refused(r)
    }
}

// How far a place lies from the origin on, if that is below a length.
fn within(v: i32, o: i32, length: u32) -> Option<u32>
    ensures inside { IfSome result (λ d. (below (v -ℤ o) length ≡ true) × (d ≡ distance_of (v -ℤ o))) }
    ensures outside { IfNone result (below (v -ℤ o) length ≡ false) }
{
    match terms::distance(v, o) {
        Some(d) if d < length => Some(d),
        _ => None,
    }
}

impl Window {
    // Whether the corners are in order.
    fn is_uncrossed(self) -> bool
        ensures { result ≡ uncrossed self }
    {
        self.x0 <= self.x1 && self.y0 <= self.y1
    }

    // The corners counted from the area's own, if both lie in the area.
    fn in_area(self, area: Area) -> Option<Corners>
        ensures inside { IfSome result (λ k. (corners_inside area self ≡ true) × (k ≡ old_corners area self)) }
        ensures outside { IfNone result (corners_inside area self ≡ false) }
    {
        Some(Corners {
            x0: within(self.x0, area.ox, area.w)?,
            y0: within(self.y0, area.oy, area.h)?,
            x1: within(self.x1, area.ox, area.w)?,
            y1: within(self.y1, area.oy, area.h)?,
        })
    }
}

// The window's corners in the area, past the guards of the area with its origin, and then of the corners.
fn admit(area: Area, window: Window) -> Result<Corners, Refusal>
    ensures inside { IfOk result (λ k. (admitted (first 5 (window_guards area window [])) ≡ granted) × (k ≡ old_corners area window)) }
    ensures refused { IfErr result (λ r. admitted (first 5 (window_guards area window [])) ≡ Err r) }
{
    terms::admit_grid(area)?;
    terms::guard(window.is_uncrossed(), Refusal::CornersCrossed)?;
    window.in_area(area).ok_or(Refusal::SquareOutside)
}

// The runs of a window that lies in its area. They are counted first, since a slice without room for them is left as it is.
fn runs_within(area: Area, window: Corners, runs: &mut [u32]) -> Result<u32, Unwritten>
    requires { Lies area.w area.h window }
    ensures answer { runs_figures result ≡ within_figures area.w area.h window runs.old }
    ensures runs { runs.new ≡ within_slice area.w area.h window runs.old }
{
    let pane = Pane {
        a: area.w,
        b: area.h,
        u0: window.x0,
        u1: window.x1 + 1,
        v0: window.y0,
        v1: window.y1 + 1,
    };
    let count = tallies::count_runs(pane);
    if runs.len() / 2 < count as usize {
        return Err(Unwritten::NoRoom { count });
    }
    Ok(tallies::write_runs(runs, pane))
}

// The runs of a window's numbers, as pairs of first and last.
pub fn runs_for_window(area: Area, window: Window, runs: &mut [u32]) -> Result<u32, Unwritten>
    ensures answer { runs_figures result ≡ runs_for_window_at area window runs.old }
    ensures runs { runs.new ≡ slice_after_at area window runs.old }
{
    let corners = admit(area, window)?;
    runs_within(area, corners, runs)
}
