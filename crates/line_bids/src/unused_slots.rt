// Refusal 10: a bid's unused slots.
ghost use Rattle.std.specs.Prelude.{◌≡◌, ◌-◌, ◌≤◌, ◌<◌};
ghost use Rattle.rules.specs.Fold.{first};
ghost use Rattle.rules.specs.Layout.{bid_count};
ghost use Rattle.rules.specs.Refusals.{unused_fault};
ghost use Rattle.refusals.specs.Numbers.{fault_of};

use layout::bids::{bid_break, bid_price};
use layout::header::Line;
use refusals::Refusal;

// Refusal 10 of the whole bid. The loop maintains that the unused slots before j are 0.
#[tactic(auto, using(crate::proofs::unused_slots::Unused::unused_cases))]
pub fn check_unused(line: &Line, s: usize, count: usize) -> Result<(), Refusal>
    requires { (s < 5) × (count ≤ 11) × (count ≡ bid_count line.now s) }
    ensures { fault_of result ≡ first (unused_fault line.now s) (11 - count) }
{
    for j in count..11 {
        if bid_break(line, s, j) != 0 || bid_price(line, s, j) != 0 {
            return Err(Refusal::UnusedSlot);
        }
    }
    Ok(())
}
