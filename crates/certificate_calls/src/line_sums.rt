// A line's widths and quantities added up over its steps, with the excess that no step took, as the step view answers them: the
// certificate's clauses on quantities, on real calls. The contract says what the sums are: M, the line's totals and its effective actual.
ghost use Rattle.std.specs.Prelude.{◌≡◌, ℕ, ◌+◌, ◌<◌, ◌^◌};
ghost use Rattle.rules.specs.Fold.{five, at};
ghost use Rattle.rules.specs.Viewing.{view_answer};
ghost use Rattle.certificate_calls.specs.Lines.{sums_of, sums_refused, line_sums, added_in, sums_excess, sums_with, Addable, LineCounted};

use cutter::steps::steps;
use day_header::line_part;
use rules::{Excess, View};
use std::array::from_fn;
use view::view;

// What the steps of one line add up to, quantities with their excess. Arrays are by schedule. The number stays in the struct, since the
// definitions sums_of, sums_refused and line_sums answer it there, as the view does.
#[derive(Clone, Copy)]
pub struct LineSums {
    // 0, or the refusal
    pub number: u32,
    pub width: u32,
    pub actual: u32,
    pub pricing: [u32; 5],
    pub operating: [u32; 5],
}

// Two rows added place by place.
fn added(a: [u32; 5], b: [u32; 5]) -> [u32; 5]
    requires { (s : ℕ) → s < 5 → at a s + at b s < 2 ^ 32 }
    ensures { result ≡ five (added_in a b) }
{
    from_fn(|s| a[s] + b[s])
}

// A refused day or line: the number and zeros.
#[tactic(auto, unfolding(crate::specs::Lines::sums_refused))]
fn refused(number: u32) -> LineSums
    ensures { result ≡ sums_refused number }
{
    LineSums {
        number,
        width: 0,
        actual: 0,
        pricing: [0; 5],
        operating: [0; 5],
    }
}

// The sums before any step: the excess.
#[tactic(auto, unfolding(crate::specs::Lines::sums_excess))]
fn with_excess(v: View) -> LineSums
    ensures { result ≡ sums_excess v }
{
    let Excess {
        operating,
        pricing,
        actual,
    } = v.excess;
    LineSums {
        number: 0,
        width: 0,
        actual,
        pricing,
        operating,
    }
}

// The sums with one more step.
#[tactic(auto, unfolding(crate::specs::Lines::sums_with))]
fn with_step(a: LineSums, v: View) -> LineSums
    requires { Addable a v }
    ensures { result ≡ sums_with a v }
{
    LineSums {
        number: a.number,
        width: a.width + v.width,
        actual: a.actual + v.actual,
        pricing: added(a.pricing, v.pricing),
        operating: added(a.operating, v.operating),
    }
}

// The sums over all steps of a line, from the view of its first. The loop maintains that those below step j are added up.
#[tactic(auto, using(crate::specs::Lines::sums_none, crate::specs::Lines::sums_more, crate::specs::Lines::sums_all))]
fn all_steps(day: &[u8], line: usize, count: usize, first: View) -> LineSums
    requires { (LineCounted day.now line count) × (first ≡ view_answer day.now line 0) }
    ensures { result ≡ sums_of day.now line }
{
    let mut sums = with_excess(first);
    for j in 0..count {
        sums = with_step(sums, view(day, line, j));
    }
    sums
}

// The sums of a line, for any bytes and any number: the steps are those that settling cuts, the figures those of the view.
#[tactic(auto, using(crate::specs::Lines::first_number, crate::specs::Lines::sums_refused_lem, crate::specs::Lines::sums_taken))]
pub fn line_sums(day: &[u8], line: usize) -> LineSums
    ensures { result ≡ line_sums day.now line }
{
    let first = view(day, line, 0);
    if first.number != 0 {
        refused(first.number)
    } else {
        let c = steps(line_part(day, line).as_array().unwrap());
        all_steps(day, line, c.count as usize, first)
    }
}
