// The views of all steps of a line by one call: the day is checked, the line cut and the pool of its side worked out once.
ghost use Rattle.std.specs.Prelude.{◌≡◌, ◌<◌, length, IfOk};
ghost use Rattle.std.proofs.lemmas.List.Edits.{sets};
ghost use Rattle.rules.specs.Layout.{line_count};
ghost use Rattle.rules.specs.Refusals.{day_fault, view_fault};
ghost use Rattle.refusals.specs.Numbers.{fault_of};
ghost use Rattle.view.specs.LineViews.{line_views};

use crate::figures::step_view;
use cutter::steps::steps;
use day::check_day;
use day_pools::pool_for;
use layout::header::line_count;
use refusals::Refusal;
use rules::View;
use step_inputs::day_line::DayLine;
use step_inputs::inputs::market_of;

// Puts the views of a line's steps into the first of the lent places, and answers how many. The loop maintains that those of the first j
// steps are put, and `lower` is the last of their ends.
fn put_line_views(line: &DayLine<'_>, views: &mut [View; 56]) -> usize
    requires { day_fault line.now.day.now ≡ 0 }
    ensures value { result ≡ length (line_views line.now.day.now line.now.k) }
    ensures views_after { views.new ≡ sets views.old 0 (line_views line.now.day.now line.now.k) }
{
    let day = line.day;
    let bytes = line.bytes;
    let pool = pool_for(day, line.market, line.totals.side);
    let cut = steps(bytes);
    let count = cut.count as usize;
    let mut lower = 0;
    for j in 0..count {
        views[j] = step_view(line, &cut, lower, j, pool);
        lower = cut.ends[j];
    }
    count
}

// Puts the views of line k of an accepted day into the first of the lent places, and answers how many.
pub fn put_views(day: &[u8], k: usize, views: &mut [View; 56]) -> usize
    requires { (day_fault day.now ≡ 0) × (k < line_count day.now) }
    ensures value { result ≡ length (line_views day.now k) }
    ensures views_after { views.new ≡ sets views.old 0 (line_views day.now k) }
{
    put_line_views(&DayLine::new(day, k, market_of(day)), views)
}

// Puts the views of a line's steps into the first of the lent places and answers how many, for any bytes and any number. Refused, the lent
// places are as they were.
pub fn line_views(day: &[u8], k: usize, views: &mut [View; 56]) -> Result<usize, Refusal>
    ensures number { fault_of result ≡ view_fault day.now k 0 }
    ensures count { IfOk result (λ n. n ≡ length (line_views day.now k)) }
    ensures views_after { views.new ≡ sets views.old 0 (line_views day.now k) }
{
    check_day(day)?;
    if line_count(day) <= k {
        return Err(Refusal::NoLine);
    }
    Ok(put_views(day, k, views))
}
