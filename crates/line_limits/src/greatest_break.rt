// M, the greatest break of a line's five bids (document 01, "Steps and prices").
ghost use Rattle.std.specs.Prelude.{◌≡◌, ◌<◌};
ghost use Rattle.rules.specs.Fold.{first};
ghost use Rattle.rules.specs.Steps.{bid_most, greatest_break};
ghost use Rattle.rules.specs.Refusals.{bid_fault};

use layout::bids::{bid_count, bid_word};
use layout::header::Line;

// The greatest break of an accepted bid is its last; of a pulled bid, which has none, the word there is its count, 0.
#[tactic(auto, using(crate::proofs::greatest_break::Laws::count_most, crate::proofs::greatest_break::Laws::last_most))]
fn bid_most(line: &Line, s: usize) -> u32
    requires { (s < 5) × (bid_fault line.now s ≡ 0) }
    ensures { result ≡ bid_most line.now s }
{
    bid_word(line, s, bid_count(line, s))
}

// M, where the bids are accepted. The loop maintains that `most` is the greatest break of the bids before s.
#[tactic(auto, using(laws::specs::Folds::most_none, crate::proofs::greatest_break::Laws::most_more, crate::proofs::greatest_break::Laws::bid_passed), unfolding(rules::specs::Steps::greatest_break))]
pub fn greatest_break(line: &Line) -> u32
    requires { first (bid_fault line.now) 5 ≡ 0 }
    ensures { result ≡ greatest_break line.now }
{
    let mut most = 0;
    for s in 0..5 {
        most = bid_most(line, s).max(most);
    }
    most
}
