// The quantities of a step, each for the five schedules at once: O, E, A, AGINO, MSIQ, constrained on (document 01, "Quantities") and what no
// step takes (document 02, F-2).
ghost use Rattle.std.specs.Prelude.{◌≡◌, ℕ, ◌≤◌, ◌<◌};
ghost use Rattle.rules.specs.Fold.{five, at};
ghost use Rattle.rules.specs.Quantities as rule;
ghost use Rattle.rules.specs.Payments as paper;
ghost use Rattle.step_quantities.specs.Quantities.{quantities_on};

use rules::{Excess, Step};
use std::array::from_fn;
use step_agino::agino;
use step_allocation::{Allocation, actual_on, operating_on, pricing_on, taken, taken_row};
use step_msiq::msiq;

// The quantities of one step. Arrays are by schedule.
#[derive(Clone, Copy)]
pub struct StepQuantities {
    // O, E, A
    pub operating: [u32; 5],
    pub pricing: [u32; 5],
    pub actual: u32,
    // AGINO, MSIQ, C
    pub agino: [u32; 5],
    pub msiq: [u32; 5],
    pub constrained: [u32; 5],
    // what no step of the line takes
    pub excess: Excess,
}

// C, from O, AGINO, which is at most O, and MSIQ
#[tactic(auto, unfolding(rules::specs::Quantities::constrained))]
pub fn constrained(o: [u32; 5], g: [u32; 5], q: [u32; 5]) -> [u32; 5]
    requires { (s : ℕ) → s < 5 → at g s ≤ at o s }
    ensures { result ≡ five (rule.constrained o g q) }
{
    from_fn(|s| (o[s] - g[s]).saturating_sub(q[s]))
}

// All quantities of a step, with what no step of its line takes.
#[tactic(auto, using(crate::specs::Bounds::agino_row), unfolding(crate::specs::Quantities::quantities_on, step_allocation::specs::Rows::operating_allocations, step_allocation::specs::Rows::pricing_allocations, step_allocation::specs::Rows::actual_allocation, rules::specs::Payments::agino_on, rules::specs::Payments::msiq_on, rules::specs::Payments::constrained_on, rules::specs::Payments::on_step, rules::specs::Payments::excess_of))]
pub fn quantities_on(x: Step) -> StepQuantities
    ensures { result ≡ quantities_on x }
{
    let Allocation {
        taken: operating,
        excess: operating_excess,
    } = operating_on(x);
    let Allocation {
        taken: pricing,
        excess: pricing_excess,
    } = pricing_on(x);
    let Allocation {
        taken: actual,
        excess: actual_excess,
    } = actual_on(x);
    let g = agino(operating, actual);
    let q = msiq(x.side, x.price, x.market, pricing);
    StepQuantities {
        operating,
        pricing,
        actual,
        agino: g,
        msiq: q,
        constrained: constrained(operating, g, q),
        excess: Excess {
            operating: operating_excess,
            pricing: pricing_excess,
            actual: actual_excess,
        },
    }
}

// C of a step, where its other quantities and the excess are not asked for.
#[tactic(auto, using(crate::specs::Bounds::agino_row), unfolding(rules::specs::Payments::operating_on, rules::specs::Payments::pricing_on, rules::specs::Payments::actual_on, rules::specs::Payments::agino_on, rules::specs::Payments::msiq_on, rules::specs::Payments::constrained_on, rules::specs::Payments::on_step))]
pub fn constrained_on(x: Step) -> [u32; 5]
    ensures { result ≡ paper.on_step x }
{
    let o = taken_row(x.operating, x.lower, x.upper);
    let e = taken_row(x.pricing, x.lower, x.upper);
    let g = agino(o, taken(x.actual, x.lower, x.upper));
    constrained(o, g, msiq(x.side, x.price, x.market, e))
}
