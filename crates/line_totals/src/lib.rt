// Sums of rows of five, in 64 bits, because nothing bounds the words of the totals.

#![tactic(auto)]

ghost use Rattle.std.specs.Prelude.{◌≡◌};
ghost use Rattle.rules.specs.Fold.{five};
ghost use Rattle.rules.specs.Quantities.{table_total};
ghost use Rattle.line_totals.specs.Sums.{row_sum, lesser_sum};

use std::array::from_fn;

// The sum of a row.
pub fn row_sum(row: [u32; 5]) -> u64
    ensures { result ≡ row_sum row }
{
    row.iter().map(|x| u64::from(*x)).sum()
}

// The operating totals of a table.
#[tactic(auto, unfolding(crate::specs::Sums::row_sum, rules::specs::Quantities::table_total))]
pub fn operating_totals(table: [[u32; 5]; 5]) -> [u64; 5]
    ensures { result ≡ five (table_total table) }
{
    table.map(row_sum)
}

// The effective actual: over the intervals, the lesser of operating row 5 and the actual.
#[tactic(auto, unfolding(crate::specs::Sums::row_sum, crate::specs::Sums::lesser_sum, crate::specs::Sums::lesser_at, rules::specs::Fold::sum_to))]
pub fn effective_actual(last: [u32; 5], actual: [u32; 5]) -> u64
    ensures { result ≡ lesser_sum last actual }
{
    row_sum(from_fn(|i| last[i].min(actual[i])))
}
