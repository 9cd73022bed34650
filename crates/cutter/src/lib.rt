// The cutter: one line's bytes to its steps' ends, prices and missing-price flags (document 01, "Steps and prices"), or to its refusal.

#![tactic(auto)]

pub mod positions;
pub mod read_step;
pub mod steps;

ghost use Rattle.std.specs.Prelude.{◌≡◌};
ghost use Rattle.rules.specs.Cutting.{cut_refused, cut_answer};
ghost use Rattle.refusals.specs.Numbers.{number};

use crate::steps::steps;
use line::check_line;
use refusals::Refusal;
use rules::Cut;

// A refused line's answer: the number and zeros.
#[tactic(auto, unfolding(rules::specs::Cutting::cut_refused))]
fn refused(refusal: Refusal) -> Cut
    ensures { result ≡ cut_refused (number refusal) }
{
    Cut {
        flags: [0; 5],
        number: u32::from(refusal),
        count: 0,
        missing: [0; 5],
        ends: [0; 56],
        prices: [0; 280],
        reserved: 0,
    }
}

// The cutter (document 01, "Steps and prices"), for any bytes.
pub fn cut(line: &[u8]) -> Cut
    ensures { result ≡ cut_answer line.now }
{
    let Some(line) = line.as_array() else {
        return refused(Refusal::LineLength);
    };
    match check_line(line) {
        Ok(()) => steps(line),
        Err(refusal) => refused(refusal),
    }
}
