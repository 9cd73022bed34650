// A line's rows: pricing totals, the operating table, actuals.
ghost use Rattle.std.specs.Prelude.{◌≡◌, ◌<◌, ◌≤◌};
ghost use Rattle.rules.specs.Fold.{five};
ghost use Rattle.rules.specs.Layout.{pricing_entry, operating_entry, operating_table, actual_entry};
ghost use Rattle.rules.specs.Quantities.{pricing_total};

use layout::fields::{actual_entry, operating_entry, pricing_word};
use layout::header::Line;
use line_totals::row_sum;
use std::array::from_fn;

// Where each row begins among the fifteen pricing quantities.
const ROWS: [usize; 5] = [0, 5, 9, 12, 14];

// The pricing quantity of row r for interval i.
fn pricing_entry(line: &Line, r: usize, i: usize) -> u32
    requires { (r ≤ i) × (i < 5) }
    ensures { result ≡ pricing_entry line.now r i }
{
    pricing_word(line, ROWS[r] + i - r)
}

// The pricing total of schedule s, which reads interval i in row min(s, i).
#[tactic(auto, unfolding(rules::specs::Quantities::pricing_total, line_totals::specs::Sums::row_sum, rules::specs::Fold::sum_to))]
fn pricing_total(line: &Line, s: usize) -> u64
    requires { s < 5 }
    ensures { result ≡ pricing_total line.now s }
{
    row_sum(from_fn(|i| pricing_entry(line, s.min(i), i)))
}

// The five pricing totals.
pub fn pricing_totals(line: &Line) -> [u64; 5]
    ensures { result ≡ five (pricing_total line.now) }
{
    from_fn(|s| pricing_total(line, s))
}

// One row of the operating table.
pub fn operating_row(line: &Line, s: usize) -> [u32; 5]
    requires { s < 5 }
    ensures { result ≡ five (operating_entry line.now s) }
{
    from_fn(|i| operating_entry(line, s, i))
}

// The operating quantities, five schedules by five intervals.
pub fn operating_table(line: &Line) -> [[u32; 5]; 5]
    ensures { result ≡ operating_table line.now }
{
    // Written out: the proof of array::from_fn did not close where each place is an array.
    [
        operating_row(line, 0),
        operating_row(line, 1),
        operating_row(line, 2),
        operating_row(line, 3),
        operating_row(line, 4),
    ]
}

// The five actuals.
pub fn actuals(line: &Line) -> [u32; 5]
    ensures { result ≡ five (actual_entry line.now) }
{
    from_fn(|i| actual_entry(line, i))
}
