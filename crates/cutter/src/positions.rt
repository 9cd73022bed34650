// Where the sweep over a line's steps stands, so that it can be taken up there, and steps passed over that nothing is asked of but their
// number.
ghost use Rattle.std.specs.Prelude.{◌≡◌, ◌+◌, ◌<◌, ◌≤◌};
ghost use Rattle.std.specs.Option.{MatchOption};
ghost use Rattle.rules.specs.Layout.{quantity_most};
ghost use Rattle.cutter_cursors.specs.Sweep.{Line as Accepted, first_places, far};
ghost use Rattle.cutter.specs.Positions.{SweptAt, Skipped};

use cutter_cursors::cursors::{Sweep, next_gap, passed, start};
use layout::header::Line;

// A gap that no break above an end has.
pub const FAR: u32 = 1 << 31;

// Before step `step`, counted from 0: its lower end and the gap from there to its upper end, FAR or more after the last step.
#[derive(Clone, Copy)]
pub struct Position {
    pub places: Sweep,
    pub lower: u32,
    pub gap: u32,
    pub step: usize,
}

impl Position {
    // The upper end of the next step; none after the last.
    #[inline(always)]
    pub fn next_end(self) -> Option<u32>
        requires { self.lower ≤ quantity_most }
        ensures { MatchOption result (far ≤ self.gap) (λ end. (self.gap < far) × (end ≡ self.lower + 1 + self.gap)) }
    {
        if self.gap < FAR {
            Some(self.lower + 1 + self.gap)
        } else {
            None
        }
    }

    // The same where it is at or below u.
    #[inline(always)]
    pub fn end_by(self, u: u32) -> Option<u32>
        requires { self.lower ≤ quantity_most }
        ensures { MatchOption result (self.gap < far → u < self.lower + 1 + self.gap)
            (λ end. (self.gap < far) × (end ≡ self.lower + 1 + self.gap) × (end ≤ u)) }
    {
        self.next_end().filter(|end| *end <= u)
    }

    // After the next step, which ends at `end`.
    #[inline(always)]
    pub fn passed(self, line: &Line, end: u32) -> Position
        requires { SweptAt line.now self × (self.gap < far) × (end ≡ self.lower + 1 + self.gap) }
        ensures { SweptAt line.now result × (result.step ≡ self.step + 1) × (result.lower ≡ end) }
    {
        let places = passed(line, self.places, end);
        Position {
            places,
            lower: end,
            gap: next_gap(line, places, end),
            step: self.step + 1,
        }
    }
}

// No position: what a place holds before one is put there.
pub fn no_position() -> Position
    ensures { result ≡ record { places = first_places; lower = 0; gap = 0; step = 0 } }
{
    Position {
        places: start(),
        lower: 0,
        gap: 0,
        step: 0,
    }
}

// Before the first step.
pub fn first_position(line: &Line) -> Position
    requires { Accepted line.now }
    ensures { SweptAt line.now result × (result.step ≡ 0) }
{
    let places = start();
    Position {
        places,
        lower: 0,
        gap: next_gap(line, places, 0),
        step: 0,
    }
}

// After the steps from p on that end at or below u. The loop maintains that the sweep stands at a position, and that the steps from p on
// before it end at or below u.
pub fn skip_to(line: &Line, p: Position, u: u32) -> Position
    requires { Accepted line.now × SweptAt line.now p }
    ensures { Skipped line.now p u result }
{
    let mut at = p;
    while let Some(end) = at.end_by(u) {
        at = at.passed(line, end);
    }
    at
}
