// What a step adds to its side's pool (document 01, "Payments"): what its revised payments pay and take back, and its part of B; and the
// sum of two pools.
ghost use Rattle.std.specs.Prelude.{◌≡◌, ℕ, ◌<◌, ◌^◌};
ghost use Rattle.rules.specs.Fold.{five};
ghost use Rattle.rules.specs.Payments.{bit};
ghost use Rattle.step_payments.specs.Sizes.{Sized};
ghost use Rattle.step_pool.specs.Amounts.{sum_in, differ_in, step_pool, no_pool, pool_sum, Addable, takes_back};

use crate::pool_amounts::{PoolStep, SidePool};
use crate::skipped_steps::{all_zero, changes_on, most};
use rules::Step;
use std::array::from_fn;
use step_changes::rates::rates;
use step_matching::matches::match_table;
use step_payments::given_back::revised_rows;
use step_quantities::constrained::constrained_on;

// 1 where two rows differ, place by place.
fn differing(a: [u64; 5], b: [u64; 5]) -> [u64; 5]
    ensures { result ≡ five (differ_in a b) }
{
    from_fn(|s| u64::from(a[s] != b[s]))
}

// Two rows, place by place.
#[tactic(auto, unfolding(crate::specs::Amounts::sum_in))]
pub fn add_rows(a: [u64; 5], b: [u64; 5]) -> [u64; 5]
    requires { (s : ℕ) → sum_in a b s < 2 ^ 64 }
    ensures { result ≡ five (sum_in a b) }
{
    from_fn(|s| a[s] + b[s])
}

// Two pools, or two parts of one.
pub fn pool_add(a: SidePool, b: SidePool) -> SidePool
    requires { Addable a b }
    ensures { result ≡ pool_sum a b }
{
    SidePool {
        plus: add_rows(a.plus, b.plus),
        minus: add_rows(a.minus, b.minus),
        rises: add_rows(a.rises, b.rises),
        falls: add_rows(a.falls, b.falls),
        differs: add_rows(a.differs, b.differs),
    }
}

// A pool with one step more, and whether an initial payment of the step takes something back. A step whose C are all 0 adds nothing; most
// others take nothing back, so that their revised payments are the initial ones, and need no matches.
pub fn pool_with(p: SidePool, x: Step) -> PoolStep
    requires { (Sized x) × (Addable p (step_pool x)) × (pool_sum p no_pool ≡ p) }
    ensures { (result.pool ≡ pool_sum p (step_pool x)) × (bit result.takes ≡ takes_back x) }
{
    let c = constrained_on(x);
    if most(c) == 0 {
        return PoolStep {
            pool: p,
            takes: false,
        };
    }
    let v = changes_on(x, c, rates(x));
    if all_zero(v.minus) {
        return PoolStep {
            pool: pool_add(p, v.pool([0; 5], [0; 5])),
            takes: false,
        };
    }
    let minus = revised_rows(x.side, x.price, x.market, match_table(c), v.minus);
    PoolStep {
        pool: pool_add(p, v.pool(minus, differing(minus, v.minus))),
        takes: true,
    }
}
