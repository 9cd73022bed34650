// Which steps add nothing to a pool or to a line's money.
ghost use Rattle.std.specs.Prelude.{◌≡◌};
ghost use Rattle.rules.specs.Fold.{most_to, five, at};
ghost use Rattle.rules.specs.Quantities.{least_from};
ghost use Rattle.rules.specs.Payments as paper;
ghost use Rattle.step_pool.specs.Amounts.{changes_on, all_zero};

use crate::pool_amounts::Changes;
use rules::Step;
use step_changes::rises_falls::{falls, only_paid, products, rises};

// Whether all five are 0.
pub fn all_zero(v: [u64; 5]) -> bool
    ensures { result ≡ all_zero v }
{
    v[0].max(v[1]).max(v[2]).max(v[3]).max(v[4]) == 0
}

// The least of five.
pub fn least(q: [u32; 5]) -> u32
    ensures { result ≡ least_from q 0 4 }
{
    q[0].min(q[1].min(q[2].min(q[3].min(q[4]))))
}

// The greatest of five.
pub fn most(q: [u32; 5]) -> u32
    ensures { result ≡ most_to 5 (at q) }
{
    q[0].max(q[1]).max(q[2]).max(q[3]).max(q[4])
}

// From C and R.
pub fn changes_on(x: Step, c: [u32; 5], rate: [u32; 5]) -> Changes
    requires { (c ≡ paper.on_step x) × (rate ≡ five (paper.rate x)) }
    ensures { result ≡ changes_on x }
{
    let rise = only_paid(x.paid, rises(c));
    let fall = only_paid(x.paid, falls(c));
    Changes {
        rises: rise,
        falls: fall,
        plus: products(rise, rate),
        minus: products(fall, rate),
    }
}
