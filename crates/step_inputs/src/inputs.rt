// What one step is worked out from: the market table, a line's totals and the cut step, put together as a `Step`.
ghost use Rattle.std.specs.Prelude.{◌≡◌, ℕ, ◌≤◌, ◌<◌, ◌^◌, length};
ghost use Rattle.rules.specs.Fold.{five, at};
ghost use Rattle.rules.specs.Refusals.{line_fault_with};
ghost use Rattle.rules.specs.Days.{step_of};
ghost use Rattle.step_inputs.specs.Inputs.{market_of, totals_of, step_with, StepReady, StepHere};
ghost use Rattle.step_terms.specs.Terms.{paid_row};

use cutter::read_step::{flag_row, price_row};
use cutter_cursors::cursors::Sweep;
use cutter_prices::{Slots, step_rows};
use layout::fields::{accreditation, hedge, side};
use layout::header::Line;
use layout::market::{cap_marks, clawback, market_prices, price_cap};
use line_limits::greatest_break::greatest_break;
use line_quantities::rows::{actuals, pricing_totals};
use line_totals::{effective_actual, operating_totals};
use rules::Step;
use std::array::from_fn;
use step_terms::{accredited_row, capped_row, paid_row};

// The market table.
#[derive(Clone, Copy)]
pub struct Market {
    pub price: [u32; 5],
    pub mark: [u32; 5],
    pub cap: u32,
    pub clawback: u32,
}

// What the steps of a line share.
#[derive(Clone, Copy)]
pub struct LineTotals {
    pub side: u32,
    pub accredited: [u32; 5],
    pub hedge: u32,
    pub pricing: [u32; 5],
    pub operating: [u32; 5],
    pub actual: u32,
    // M
    pub most: u32,
}

// The market table.
pub fn market_of(day: &[u8]) -> Market
    requires { 72 ≤ length day.now }
    ensures { result ≡ market_of day.now }
{
    Market {
        price: market_prices(day),
        mark: cap_marks(day),
        cap: price_cap(day),
        clawback: clawback(day),
    }
}

fn narrow(v: u64) -> u32
    requires { v < 2 ^ 32 }
    ensures { result ≡ v }
{
    v as u32
}

fn narrow_row(row: [u64; 5]) -> [u32; 5]
    requires { (s : ℕ) → s < 5 → at row s < 2 ^ 32 }
    ensures { result ≡ five (at row) }
{
    from_fn(|s| row[s] as u32)
}

// The totals of a line that is accepted with this table of operating quantities.
pub fn totals_of(line: &Line, table: [[u32; 5]; 5]) -> LineTotals
    requires { line_fault_with table line.now ≡ 0 }
    ensures { result ≡ totals_of table line.now }
{
    LineTotals {
        side: side(line),
        accredited: accredited_row(accreditation(line)),
        hedge: hedge(line),
        pricing: narrow_row(pricing_totals(line)),
        operating: narrow_row(operating_totals(table)),
        actual: narrow(effective_actual(table[4], actuals(line))),
        most: greatest_break(line),
    }
}

// A step from its ends, uncapped prices and flags, and where it is paid.
fn step_with(
    m: Market,
    t: LineTotals,
    lower: u32,
    upper: u32,
    price: [u32; 5],
    flag: [u32; 5],
    paid: [u32; 5],
) -> Step
    requires { paid ≡ paid_row t.accredited t.hedge upper }
    ensures { result ≡ step_with m t lower upper price flag }
{
    let market = m.price;
    let pricing = t.pricing;
    let operating = t.operating;
    Step {
        side: t.side,
        lower,
        upper,
        price: capped_row(m.mark, m.cap, price),
        flag,
        market,
        paid,
        pricing,
        operating,
        actual: t.actual,
        most: t.most,
    }
}

// Step j of line k, from the market table, the line's totals and what the cutter answers for it; `lower` is the end before. The day's
// bytes are not read: the contract speaks of them.
#[inline(always)]
pub fn step_at(
    day: &[u8],
    k: usize,
    m: Market,
    t: LineTotals,
    ends: &[u32; 56],
    prices: &[u32; 280],
    flags: [u64; 5],
    lower: u32,
    j: usize,
) -> Step
    requires { StepReady day.now k m t ends.now prices.now flags lower j }
    ensures { result ≡ step_of day.now k j }
{
    let upper = ends[j];
    let price = price_row(prices, j);
    let flag = flag_row(flags, j);
    let paid = paid_row(t.accredited, t.hedge, upper);
    step_with(m, t, lower, upper, price, flag, paid)
}

// Step j of line k, past the hedge, where the sweep over the line stands; `line` is the line's bytes, and those of the day are not read. It
// is paid in each schedule in which its line is accredited.
#[inline(always)]
pub fn step_here(
    day: &[u8],
    k: usize,
    line: &Line,
    m: Market,
    t: LineTotals,
    slots: Slots,
    places: Sweep,
    lower: u32,
    upper: u32,
    j: usize,
) -> Step
    requires { StepHere day.now k line.now m t slots places lower upper j }
    ensures { result ≡ step_of day.now k j }
{
    let rows = step_rows(line, slots, places, upper);
    step_with(m, t, lower, upper, rows.price, rows.flag, t.accredited)
}
