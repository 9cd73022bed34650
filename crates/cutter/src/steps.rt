// The steps of an accepted line (document 01, "Steps and prices"): the least of the cursors' breaks and of the hedge that is above the
// last end is the next end, and where a cursor stands gives the step's price and flag in its schedule. No cursor moves back, and compiled,
// nothing in a step is decided by a branch.
ghost use Rattle.std.specs.Prelude.{◌≡◌};
ghost use Rattle.std.specs.Int.Count.{ones};
ghost use Rattle.rules.specs.Fold.{five, at};
ghost use Rattle.rules.specs.Cutting.{cut_of};
ghost use Rattle.cutter_cursors.specs.Sweep.{Line as Accepted};

use crate::positions::first_position;
use cutter_prices::{Missing, flag_words, price_slots, put_step};
use layout::header::Line;
use rules::Cut;

// How many flags are set in each word.
fn counted(words: [u64; 5]) -> [u32; 5]
    ensures { result ≡ five (λ s. ones (at words s)) }
{
    words.map(|word| word.count_ones())
}

// The steps of an accepted line. The loop maintains that the ends and prices of the steps before the position `at` are written and their
// flags counted.
pub fn steps(line: &Line) -> Cut
    requires { Accepted line.now }
    ensures { result ≡ cut_of line.now }
{
    let mut ends = [0u32; 56];
    let mut prices = [0u32; 280];
    let mut missing = Missing { count: [0; 5] };
    let slots = price_slots(line);
    let mut at = first_position(line);
    while let Some(end) = at.next_end() {
        ends[at.step] = end;
        missing = put_step(line, &mut prices, slots, at.places, end, at.step, missing);
        at = at.passed(line, end);
    }
    let flags = flag_words(at.step, missing);
    Cut {
        flags,
        number: 0,
        count: at.step as u32,
        missing: counted(flags),
        ends,
        prices,
        reserved: 0,
    }
}
