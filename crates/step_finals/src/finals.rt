// The final payments of one step, which are worked out from the pool of its side (document 01, "Payments").
ghost use Rattle.std.specs.Prelude.{◌≡◌, ℕ, ◌<◌, ◌^◌};
ghost use Rattle.rules.specs.Fold.{five};
ghost use Rattle.rules.specs.Payments as paper;
ghost use Rattle.step_payments.specs.Sizes.{Sized};
ghost use Rattle.step_payments.specs.Amounts.{minus_of, money_of};
ghost use Rattle.step_pool.specs.Amounts.{sum_in, taken_with, money_sum, no_money, changes_on, final_taken, taken_on, Sharing, SharedOn, MoneyAddable};

use crate::final_shares::{Shares, taken_in, with_share};
use rules::Step;
use std::array::from_fn;
use step_changes::rates::rates;
use step_matching::matches::match_table;
use step_payments::amounts::Money;
use step_pool::adding::add_rows;
use step_pool::pool_amounts::Changes;
use step_pool::skipped_steps::{changes_on, most};
use step_quantities::constrained::constrained_on;

// What the final payments take back with clawback on, from T and B of the step's side, C, R and the step's changes.
pub fn final_taken(x: Step, h: Shares, c: [u32; 5], rate: [u32; 5], v: Changes) -> [u64; 5]
    requires { (Sized x) × (SharedOn x h.total h.base) × (c ≡ paper.on_step x) × (rate ≡ five (paper.rate x)) × (v ≡ changes_on x) }
    ensures { result ≡ five (taken_on x h.total h.base) }
{
    let m = match_table(c);
    let Shares { total, base } = h;
    let Changes { falls, minus, .. } = v;
    from_fn(|s| {
        if s == 0 {
            0
        } else {
            taken_in(
                x.flag[s],
                minus[s],
                x.side,
                x.price,
                x.price[s],
                x.market[s],
                m[s],
                rate,
                falls[s],
                total[s],
                base[s],
            )
        }
    })
}

// What the final payment takes back in a schedule after the first with clawback on, where the revised and the modified payment are worked
// out: from the flag, what the initial, the revised and the modified payment take back, the fall, T and B.
#[tactic(auto, unfolding(step_pool::specs::Amounts::final_taken))]
fn final_in(
    flag: u32,
    initial: u64,
    revised: u64,
    modified: u64,
    fall: u32,
    total: u64,
    base: u64,
) -> u64
    requires { Sharing initial revised fall total base }
    ensures { result ≡ final_taken flag initial revised modified fall total base }
{
    if initial == 0 {
        0
    } else if flag == 1 {
        modified
    } else {
        with_share(initial, revised, fall, total, base)
    }
}

// What the final payments take back with clawback on, from T and B of the step's side, the step's changes and what its revised and modified
// payments take back: for the step view, which shows those too.
pub fn final_rows(x: Step, h: Shares, v: Changes, revised: [u64; 5], modified: [u64; 5]) -> [u64; 5]
    requires { (SharedOn x h.total h.base) × (v ≡ changes_on x) × (revised ≡ five (minus_of (paper.revised x)))
        × (modified ≡ five (minus_of (paper.modified x))) }
    ensures { result ≡ five (taken_on x h.total h.base) }
{
    from_fn(|s| {
        if s == 0 {
            0
        } else {
            final_in(
                x.flag[s],
                v.minus[s],
                revised[s],
                modified[s],
                v.falls[s],
                h.total[s],
                h.base[s],
            )
        }
    })
}

// The sum of two amounts of money.
pub fn money_add(a: Money, b: Money) -> Money
    requires { MoneyAddable a b }
    ensures { result ≡ money_sum a b }
{
    Money {
        plus: add_rows(a.plus, b.plus),
        minus: add_rows(a.minus, b.minus),
    }
}

// Money with the initial payments of one step more: the final ones where clawback is off. A step whose C are all 0 is paid nothing.
pub fn initial_with(m: Money, x: Step) -> Money
    requires { (MoneyAddable m (money_of (paper.initial x))) × (money_sum m no_money ≡ m) }
    ensures { result ≡ money_sum m (money_of (paper.initial x)) }
{
    let c = constrained_on(x);
    if most(c) == 0 {
        return m;
    }
    let Changes { plus, minus, .. } = changes_on(x, c, rates(x));
    money_add(m, Money { plus, minus })
}

// Money of which the part taken back has the final payments of one step more, with clawback on, from T and B of its side.
pub fn taken_with(m: Money, x: Step, h: Shares) -> Money
    requires { (Sized x) × (SharedOn x h.total h.base) × ((s : ℕ) → sum_in m.minus (five (taken_on x h.total h.base)) s < 2 ^ 64) }
    ensures { result ≡ taken_with m (five (taken_on x h.total h.base)) }
{
    let Money { plus, minus: taken } = m;
    let c = constrained_on(x);
    let rate = rates(x);
    let v = changes_on(x, c, rate);
    let minus = add_rows(taken, final_taken(x, h, c, rate, v));
    Money { plus, minus }
}
