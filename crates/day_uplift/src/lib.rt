// Each schedule's uplift (document 02, F-1): a day's bytes to five signed shares, worked out without a book.

#![tactic(auto)]

ghost use Rattle.std.specs.Prelude.{◌≡◌};
ghost use Rattle.rules.specs.Uplift.{uplift_answer};
ghost use Rattle.day_uplift.specs.Answers.{answer_of};

use day::check_day;
use day_paid::settled_totals;
use day_shares::shares::shares_of;
use refusals::Refusal;

// The uplift of a day, for any bytes.
pub fn uplift(day: &[u8]) -> Result<[i64; 5], Refusal>
    ensures { answer_of result ≡ uplift_answer day.now }
{
    check_day(day)?;
    let totals = settled_totals(day);
    Ok(shares_of(totals.t, totals.a))
}
