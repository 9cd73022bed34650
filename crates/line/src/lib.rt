// One line's 660 bytes: refusals 6 to 13.

#![tactic(auto)]

ghost use Rattle.std.specs.Prelude.{◌≡◌, ◌+◌, ◌*◌, ◌≤◌, ◌<◌, length};
ghost use Rattle.rules.specs.Fold.{first};
ghost use Rattle.rules.specs.Refusals.{head_fault, line_fault};
ghost use Rattle.refusals.specs.Numbers.{fault_of};
ghost use Rattle.line.specs.Parts.{part_from, line_from};

use layout::bids::bid_count;
use layout::fields::{accreditation, side};
use layout::header::{LINE_BYTES, Line};
use line_bids::breaks::{check_break, check_count};
use line_bids::prices::check_slots;
use line_limits::check_limits;
use line_quantities::in_force::table_in_force;
use refusals::Refusal;

// Refusal 6: side and accreditation.
#[tactic(auto, using(crate::proofs::Laws::head_cases))]
pub fn check_head(line: &Line) -> Result<(), Refusal>
    ensures { fault_of result ≡ head_fault line.now }
{
    if side(line) > 1 {
        return Err(Refusal::SideOrAccreditation);
    }
    match accreditation(line) {
        0..=1 | 32..=63 => Ok(()),
        _ => Err(Refusal::SideOrAccreditation),
    }
}

// Line k of those that stand one after another from byte `at` on.
#[tactic(auto, using(crate::proofs::Laws::lent), unfolding(crate::specs::Parts::part_from))]
fn part_from(b: &[u8], at: usize, k: usize) -> &Line
    requires { (k < 64) × (at + 660 * (k + 1) ≤ length b.now) }
    ensures { result.now ≡ part_from b.now at k }
{
    let from = at + LINE_BYTES * k;
    b[from..from + LINE_BYTES].as_array().unwrap()
}

// The refusal of `n` lines that stand one after another from byte `at` on, with the rows in force by `count` records from byte `records`
// on: refusals 6 to 13, the first fault met. Document 01 asks for this form: loops over lines, bids and break points nested, left by label,
// the loop's value being the refusal.
// The loops maintain that the lines before k, the bids of line k before s and the breaks of bid s before j have no fault.
pub fn check_lines(
    b: &[u8],
    at: usize,
    n: usize,
    records: usize,
    count: usize,
) -> Result<(), Refusal>
    requires { (n ≤ 64) × (at + 660 * n ≤ length b.now) × (records + 32 * count ≤ length b.now) }
    ensures { fault_of result ≡ first (line_from b.now at records count) n }
{
    let mut k = 0;
    'lines: loop {
        if n <= k {
            break 'lines Ok(());
        }
        let line = part_from(b, at, k);
        if let Err(refusal) = check_head(line) {
            break 'lines Err(refusal);
        }
        for s in 0..5 {
            let count = bid_count(line, s);
            if let Err(refusal) = check_count(s, count) {
                break 'lines Err(refusal);
            }
            for j in 0..count {
                if let Err(refusal) = check_break(line, s, j) {
                    break 'lines Err(refusal);
                }
            }
            if let Err(refusal) = check_slots(line, s, count) {
                break 'lines Err(refusal);
            }
        }
        if let Err(refusal) = check_limits(line, table_in_force(b, records, count, k, line)) {
            break 'lines Err(refusal);
        }
        k += 1;
    }
}

// The refusal of one line with its own rows: refusals 6 to 13.
#[tactic(auto, using(crate::proofs::Laws::one_line))]
pub fn check_line(line: &Line) -> Result<(), Refusal>
    ensures { fault_of result ≡ line_fault line.now }
{
    check_lines(line, 0, 1, 0, 0)
}
