// A bid's count and breaks: refusals 7 and 8.
ghost use Rattle.std.specs.Prelude.{◌≡◌, ◌<◌};
ghost use Rattle.rules.specs.Fold.{before};
ghost use Rattle.rules.specs.Layout.{bid_break};
ghost use Rattle.rules.specs.Refusals.{break_fault};
ghost use Rattle.refusals.specs.Numbers.{fault_of};
ghost use Rattle.line_bids.specs.Counts.{count_fault};

use layout::bids::{bid_break, break_place};
use layout::header::Line;
use refusals::Refusal;
use units::{Kind, Quantity};

// Refusal 7 of a bid of `count` steps in schedule s: a bid may be pulled after the first schedule.
#[tactic(auto, using(crate::proofs::breaks::Breaks::count_cases))]
pub fn check_count(s: usize, count: usize) -> Result<(), Refusal>
    ensures { fault_of result ≡ count_fault s count }
{
    match (s, count) {
        (0, 0) | (_, 12..) => Err(Refusal::BidCount),
        _ => Ok(()),
    }
}

// The break before step j, 0 before the first.
#[tactic(auto, using(laws::specs::Folds::before_first, laws::specs::Folds::before_later))]
fn break_before(line: &Line, s: usize, j: usize) -> u32
    requires { (s < 5) × (j < 11) }
    ensures { result ≡ before (bid_break line.now s) j }
{
    if j == 0 { 0 } else { bid_break(line, s, j - 1) }
}

// Refusal 8 at step j.
#[tactic(auto, using(crate::proofs::breaks::Breaks::break_cases))]
pub fn check_break(line: &Line, s: usize, j: usize) -> Result<(), Refusal>
    requires { (s < 5) × (j < 11) }
    ensures { fault_of result ≡ break_fault line.now s j }
{
    let end = Quantity::read(line, break_place(s, j)).ok_or(Refusal::Breaks)?;
    if end.mj <= break_before(line, s, j) {
        Err(Refusal::Breaks)
    } else {
        Ok(())
    }
}
