// Refusals 11 to 13, which hold a line's hedge to M, its totals to what they may have above M, and its actuals to the quantity limit.

#![tactic(auto)]

pub mod greatest_break;

ghost use Rattle.std.specs.Prelude.{◌≡◌, ◌+◌};
ghost use Rattle.rules.specs.Fold.{first};
ghost use Rattle.rules.specs.Layout.{excess_most};
ghost use Rattle.rules.specs.Refusals.{bid_fault, actual_fault};
ghost use Rattle.refusals.specs.Numbers.{fault_of};
ghost use Rattle.line_limits.specs.Faults.{hedge_fault, totals_fault, limits_fault};

use crate::greatest_break::greatest_break;
use layout::fields::{actual_place, hedge, side};
use layout::header::Line;
use line_quantities::rows::pricing_totals;
use line_totals::operating_totals;
use refusals::Refusal;
use units::{Kind, Quantity};

// What a total may have above M (document 02, F-2).
const EXCESS_MOST: u64 = 1000;

// Refusal 11, with M.
#[tactic(auto, using(crate::proofs::Laws::hedge_cases))]
pub fn check_hedge(line: &Line, most: u32) -> Result<(), Refusal>
    ensures { fault_of result ≡ hedge_fault line.now most }
{
    let hedged = hedge(line);
    if most < hedged {
        return Err(Refusal::Hedge);
    }
    if side(line) == 1 && hedged != 0 {
        return Err(Refusal::Hedge);
    }
    Ok(())
}

// The most that a total may be, with M.
fn total_most(most: u32) -> u64
    ensures { result ≡ most + excess_most }
{
    u64::from(most) + EXCESS_MOST
}

// Refusal 12, with the most that a total may be and the two rows of totals. The loop maintains that no total of a schedule before s is
// above it.
#[tactic(auto, using(laws::specs::Folds::first_none, laws::specs::Folds::first_more, laws::specs::Folds::first_stop, crate::proofs::Laws::totals_cases))]
pub fn check_totals(limit: u64, pricing: [u64; 5], operating: [u64; 5]) -> Result<(), Refusal>
    ensures { fault_of result ≡ first (totals_fault limit pricing operating) 5 }
{
    for s in 0..5 {
        if limit < pricing[s] {
            return Err(Refusal::Totals);
        }
        if limit < operating[s] {
            return Err(Refusal::Totals);
        }
    }
    Ok(())
}

// Refusal 13. The loop maintains that no actual of an interval before i is above the limit.
#[tactic(auto, using(laws::specs::Folds::first_none, laws::specs::Folds::first_more, laws::specs::Folds::first_stop, crate::proofs::Laws::actual_cases))]
pub fn check_actuals(line: &Line) -> Result<(), Refusal>
    ensures { fault_of result ≡ first (actual_fault line.now) 5 }
{
    for i in 0..5 {
        Quantity::read(line, actual_place(i)).ok_or(Refusal::Actuals)?;
    }
    Ok(())
}

// Refusals 11 to 13, where the bids are accepted, with the table of operating quantities that counts for the line.
#[tactic(auto, using(laws::specs::Folds::part_stops, laws::specs::Folds::part_passes, refusals::specs::Laws::is_refused, crate::proofs::Laws::totals_are), unfolding(crate::specs::Faults::limits_fault))]
pub fn check_limits(line: &Line, table: [[u32; 5]; 5]) -> Result<(), Refusal>
    requires { first (bid_fault line.now) 5 ≡ 0 }
    ensures { fault_of result ≡ limits_fault table line.now }
{
    let most = greatest_break(line);
    check_hedge(line, most)?;
    check_totals(
        total_most(most),
        pricing_totals(line),
        operating_totals(table),
    )?;
    check_actuals(line)
}
