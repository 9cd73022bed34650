// The sweep over a line, taken on by a step.
ghost use Rattle.std.specs.Prelude.{◌≡◌, ◌+◌, ◌<◌};
ghost use Rattle.cutter_cursors.specs.Sweep.{far};
ghost use Rattle.cutter.specs.Positions.{SweptAt};

use cutter::positions::Position;
use layout::header::Line;

// After the step before which the sweep stands.
#[inline(always)]
pub fn next(line: &Line, at: Position) -> Position
    requires { SweptAt line.now at × (at.gap < far) }
    ensures { SweptAt line.now result × (result.lower ≡ at.lower + 1 + at.gap) × (result.step ≡ at.step + 1) }
{
    let end = at.lower + 1 + at.gap;
    at.passed(line, end)
}
