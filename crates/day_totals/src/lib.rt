// Adjusted totals (document 01, "Totals and book"; FD 9.3), in signed 64-bit numbers.

#![tactic(auto)]

ghost use Rattle.std.specs.Prelude.{◌<◌, ◌≡◌};
ghost use Rattle.rules.specs.Fold.{five};
ghost use Rattle.rules.specs.Totals as T;
ghost use Rattle.day_totals.specs.Parts.{least_of};
ghost use Rattle.day_totals.specs.Sizes.{Bounded};

// The least of t(s), t(s)+t(s+1), .. up to the last, of each schedule s: from the last one back.
fn least_sums(t: [i64; 5]) -> [i64; 5]
    requires { Bounded t }
    ensures { result ≡ five (least_of t) }
{
    let mut least = t;
    for s in (0..4).rev() {
        least[s] = t[s].min(t[s] + least[s + 1]);
    }
    least
}

// The adjusted total of s, from the least and from what earlier schedules left.
fn adjusted_in(t: [i64; 5], s: usize, least: i64, left: i64) -> i64
    requires bounded { Bounded t }
    requires s_bound { s < 5 }
    requires least_value { least ≡ least_of t s }
    requires left_value { left ≡ T.carried t s }
    ensures { result ≡ T.adjusted t s }
{
    if s == 0 || t[s] >= 0 {
        least.max(0)
    } else {
        (t[s] + left).min(0)
    }
}

// The five adjusted totals. The loop maintains that those of the schedules before s are worked out, and that `left` is what these leave.
pub fn adjusted(t: [i64; 5]) -> [i64; 5]
    requires { Bounded t }
    ensures { result ≡ five (T.adjusted t) }
{
    let least = least_sums(t);
    let mut a = [0; 5];
    let mut left = 0;
    for s in 0..5 {
        let share = adjusted_in(t, s, least[s], left);
        left += t[s] - share;
        a[s] = share;
    }
    a
}
