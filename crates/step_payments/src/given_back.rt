// What falls give back: at the rates of the schedules where the matched units rose, or at the step's own.
ghost use Rattle.std.specs.Prelude.{◌≡◌, cond, ◌<◌, ◌^◌, eqb};
ghost use Rattle.rules.specs.Fold.{five};
ghost use Rattle.rules.specs.Payments as paper;
ghost use Rattle.step_matching.specs.Ledgers.{match_row};
ghost use Rattle.step_payments.specs.Sizes.{Sized};
ghost use Rattle.step_payments.specs.Amounts.{given_at, RevisedFits, revised_in, minus_of};

use rules::Step;
use std::array::from_fn;
use step_changes::rates::revised_rates;
use step_changes::rises_falls::product;

// What the matches of one schedule give back at these rates.
pub fn given_back(m: [u32; 5], rate: [u32; 5]) -> u64
    requires { given_at m rate < 2 ^ 64 }
    ensures { result ≡ given_at m rate }
{
    let mut sum = 0;
    for r in 0..4 {
        sum += product(m[r], rate[r]);
    }
    sum
}

// The same where the initial payment takes something back, else 0.
fn given_if_taken(initial: u64, m: [u32; 5], rate: [u32; 5]) -> u64
    requires { given_at m rate < 2 ^ 64 }
    ensures { result ≡ cond (eqb initial 0) 0 (given_at m rate) }
{
    if initial == 0 { 0 } else { given_back(m, rate) }
}

// What the revised payments take back, from the side, prices and market prices of a step, the match table and what the initial payments take back.
#[tactic(auto, unfolding(crate::specs::Amounts::revised_given))]
pub fn revised_rows(
    side: u32,
    price: [u32; 5],
    market: [u32; 5],
    t: [[u32; 5]; 5],
    initial: [u64; 5],
) -> [u64; 5]
    requires { RevisedFits side price market t }
    ensures { result ≡ five (revised_in side price market t initial) }
{
    from_fn(|s| {
        if s == 0 || initial[s] == 0 {
            0
        } else {
            given_back(t[s], revised_rates(side, price, price[s], market[s]))
        }
    })
}

// The same of a step.
pub fn revised_minus(x: Step, t: [[u32; 5]; 5], initial: [u64; 5]) -> [u64; 5]
    requires { (Sized x) × (t ≡ five (match_row (paper.on_step x))) × (initial ≡ five (minus_of (paper.initial x))) }
    ensures { result ≡ five (minus_of (paper.revised x)) }
{
    revised_rows(x.side, x.price, x.market, t, initial)
}

// What the modified payments take back, from the match table, the rates and what the initial payments take back.
pub fn modified_minus(x: Step, t: [[u32; 5]; 5], rate: [u32; 5], initial: [u64; 5]) -> [u64; 5]
    requires { (Sized x) × (t ≡ five (match_row (paper.on_step x))) × (rate ≡ five (paper.rate x)) × (initial ≡ five (minus_of (paper.initial x))) }
    ensures { result ≡ five (minus_of (paper.modified x)) }
{
    from_fn(|s| {
        if s == 0 {
            0
        } else {
            given_if_taken(initial[s], t[s], rate)
        }
    })
}
