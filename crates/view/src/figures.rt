// The figures of one step, which the step view answers.
ghost use Rattle.std.specs.Prelude.{◌≡◌, ◌-◌, ◌<◌};
ghost use Rattle.rules.specs.Fold.{five};
ghost use Rattle.rules.specs.Layout.{line_at, side};
ghost use Rattle.rules.specs.Days.{settled_day};
ghost use Rattle.rules.specs.Payments as paper;
ghost use Rattle.rules.specs.Viewing.{view_of};
ghost use Rattle.step_inputs.specs.Inputs.{StepReady};
ghost use Rattle.step_payments.specs.Sizes.{Sized};
ghost use Rattle.step_payments.specs.Amounts.{minus_of};
ghost use Rattle.step_pool.specs.Amounts.{changes_on, final_on};
ghost use Rattle.day_pools.specs.Lines.{PoolFor, Payable};
ghost use Rattle.view.specs.Figures.{view_from};

use rules::{Cut, Step, View};
use step_changes::rates::rates;
use step_finals::final_shares::shares_of;
use step_finals::finals::final_rows;
use step_inputs::day_line::DayLine;
use step_matching::matches::{match_table, ten_matches};
use step_payments::amounts::Money;
use step_payments::given_back::{modified_minus, revised_minus};
use step_payments::payments::signed_money;
use step_pool::pool_amounts::{Changes, SidePool};
use step_pool::skipped_steps::changes_on;
use step_quantities::constrained::quantities_on;

// The payments of a step, by schedule.
#[derive(Clone, Copy)]
struct StepPayments {
    initial: [i64; 5],
    revised: [i64; 5],
    modified: [i64; 5],
    finals: [i64; 5],
}

// What the final payments take back: with clawback off what the initial ones take back, and no pool is read.
fn final_minus(
    x: Step,
    claw: u32,
    p: SidePool,
    v: Changes,
    revised: [u64; 5],
    modified: [u64; 5],
) -> [u64; 5]
    requires { (Sized x) × (Payable x claw p) × (v ≡ changes_on x) × (revised ≡ five (minus_of (paper.revised x)))
        × (modified ≡ five (minus_of (paper.modified x))) }
    ensures { result ≡ five (minus_of (final_on x claw p)) }
{
    if claw == 0 {
        v.minus
    } else {
        final_rows(x, shares_of(p), v, revised, modified)
    }
}

// The payments of a step, from C. All four kinds pay the same.
fn payments_on(x: Step, c: [u32; 5], claw: u32, p: SidePool) -> StepPayments
    requires { (Sized x) × (Payable x claw p) × (c ≡ paper.on_step x) }
    ensures { (result.initial ≡ five (paper.initial x)) × (result.revised ≡ five (paper.revised x)) × (result.modified ≡ five (paper.modified x))
        × (result.finals ≡ five (final_on x claw p)) }
{
    let rate = rates(x);
    let t = match_table(c);
    let v = changes_on(x, c, rate);
    let plus = v.plus;
    let initial = v.minus;
    let revised = revised_minus(x, t, initial);
    let modified = modified_minus(x, t, rate, initial);
    let finals = final_minus(x, claw, p, v, revised, modified);
    StepPayments {
        initial: signed_money(Money {
            plus,
            minus: initial,
        }),
        revised: signed_money(Money {
            plus,
            minus: revised,
        }),
        modified: signed_money(Money {
            plus,
            minus: modified,
        }),
        finals: signed_money(Money {
            plus,
            minus: finals,
        }),
    }
}

// All figures of a step.
pub fn figures(x: Step, claw: u32, p: SidePool) -> View
    requires { (Sized x) × (Payable x claw p) }
    ensures { result ≡ view_from x claw p }
{
    let price = x.price;
    let flag = x.flag;
    let q = quantities_on(x);
    let operating = q.operating;
    let pricing = q.pricing;
    let agino = q.agino;
    let msiq = q.msiq;
    let constrained = q.constrained;
    let excess = q.excess;
    let y = payments_on(x, constrained, claw, p);
    let initial = y.initial;
    let revised = y.revised;
    let modified = y.modified;
    let finals = y.finals;
    View {
        initial,
        revised,
        modified,
        finals,
        number: 0,
        end: x.upper,
        width: x.upper.saturating_sub(x.lower),
        actual: q.actual,
        price,
        flag,
        operating,
        pricing,
        agino,
        msiq,
        constrained,
        matches: ten_matches(constrained),
        excess,
    }
}

// The view of step j of a line, from what the cutter answers for the line and the pool of its side; `lower` is the end before.
pub fn step_view(line: &DayLine<'_>, cut: &Cut, lower: u32, j: usize, p: SidePool) -> View
    requires { (StepReady line.now.day.now line.now.k line.now.market line.now.totals cut.now.ends cut.now.prices cut.now.flags lower j)
        × (PoolFor (settled_day line.now.day.now) (side (line_at line.now.day.now line.now.k)) p) }
    ensures { result ≡ view_of line.now.day.now line.now.k j }
{
    let x = line.step_at(cut, lower, j);
    figures(x, line.market.clawback, p)
}
