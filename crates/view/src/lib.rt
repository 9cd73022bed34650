// The step view: every figure of one step of a day (document 01, "Totals and book"), and of all steps of a line.

#![tactic(auto)]

mod figures;
pub mod line_views;

ghost use Rattle.std.specs.Prelude.{◌≡◌, ◌<◌, ◌∷◌, get_or, IfOk};
ghost use Rattle.rules.specs.Refusals.{view_fault};
ghost use Rattle.rules.specs.Viewing.{view_of, view_refused, view_answer};
ghost use Rattle.refusals.specs.Numbers.{fault_of};

use crate::figures::step_view;
use cutter::steps::steps;
use day::check_day;
use day_pools::pool_for;
use layout::header::line_count;
use refusals::Refusal;
use rules::{Excess, View};
use step_inputs::day_line::DayLine;
use step_inputs::inputs::market_of;

// A refused view: the number and zeros.
pub fn refused(number: u32) -> View
    ensures { result ≡ view_refused number }
{
    View {
        initial: [0; 5],
        revised: [0; 5],
        modified: [0; 5],
        finals: [0; 5],
        number,
        end: 0,
        width: 0,
        actual: 0,
        price: [0; 5],
        flag: [0; 5],
        operating: [0; 5],
        pricing: [0; 5],
        agino: [0; 5],
        msiq: [0; 5],
        constrained: [0; 5],
        matches: [0; 10],
        excess: Excess {
            operating: [0; 5],
            pricing: [0; 5],
            actual: 0,
        },
    }
}

// The end before step j.
fn lower_end(ends: &[u32; 56], j: usize) -> u32
    requires { j < 56 }
    ensures { result ≡ get_or (0 ∷ ends.now) j 0 }
{
    if j == 0 { 0 } else { ends[j - 1] }
}

// The view of a step, or why there is none.
fn viewed(day: &[u8], k: usize, step: usize) -> Result<View, Refusal>
    ensures number { fault_of result ≡ view_fault day.now k step }
    ensures ok { IfOk result (λ v. v ≡ view_of day.now k step) }
{
    check_day(day)?;
    if line_count(day) <= k {
        return Err(Refusal::NoLine);
    }
    let line = DayLine::new(day, k, market_of(day));
    let bytes = line.bytes;
    let cut = steps(bytes);
    if cut.count as usize <= step {
        return Err(Refusal::NoStep);
    }
    let pool = pool_for(day, line.market, line.totals.side);
    Ok(step_view(&line, &cut, lower_end(&cut.ends, step), step, pool))
}

// The step view, for any bytes and any two numbers.
pub fn view(day: &[u8], line: usize, step: usize) -> View
    ensures { result ≡ view_answer day.now line step }
{
    match viewed(day, line, step) {
        Ok(view) => view,
        Err(refusal) => refused(u32::from(refusal)),
    }
}
