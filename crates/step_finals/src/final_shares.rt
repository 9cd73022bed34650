// What a final payment takes back: T shared out over the falls of a side's paid steps (document 01, "Payments").
ghost use Rattle.std.specs.Prelude.{◌≡◌, cond, ◌+◌, ◌*◌, ◌/◌, ◌<◌, ◌^◌, eqb, min};
ghost use Rattle.rules.specs.Fold.{five};
ghost use Rattle.step_changes.specs.Changes.{revised_at};
ghost use Rattle.step_payments.specs.Amounts.{given_at};
ghost use Rattle.step_pool.specs.Amounts.{total_in, base_in, final_taken, Sharing};

use numbers::share;
use std::array::from_fn;
use step_changes::rates::revised_rates;
use step_payments::given_back::given_back;
use step_pool::pool_amounts::SidePool;

// T (0 where it isn't above 0 or nothing differs) and B of a side, by schedule.
#[derive(Clone, Copy)]
pub struct Shares {
    pub total: [u64; 5],
    pub base: [u64; 5],
}

// T by schedule, or 0 where it isn't above 0 or nothing differs.
pub fn shared_totals(p: SidePool) -> [u64; 5]
    ensures { result ≡ five (total_in p) }
{
    from_fn(|s| {
        if p.differs[s] == 0 {
            0
        } else {
            p.plus[s].saturating_sub(p.minus[s])
        }
    })
}

// B
pub fn bases(p: SidePool) -> [u64; 5]
    ensures { result ≡ five (base_in p) }
{
    from_fn(|s| p.rises[s].max(p.falls[s]))
}

// T and B of a side's pool, worked out once for all its steps.
pub fn shares_of(p: SidePool) -> Shares
    ensures { (result.total ≡ five (total_in p)) × (result.base ≡ five (base_in p)) }
{
    Shares {
        total: shared_totals(p),
        base: bases(p),
    }
}

// What the revised payment takes back with the fall's share of T, of which B is the base: at most what the initial payment takes back.
pub(crate) fn with_share(initial: u64, revised: u64, fall: u32, total: u64, base: u64) -> u64
    requires { (Sharing initial revised fall total base) × (0 < initial) }
    ensures { result ≡ cond (eqb total 0) revised (min initial (revised + total * fall / base)) }
{
    if total == 0 {
        return revised;
    }
    initial.min(revised + share(total, u64::from(fall), base))
}

// What the final payment takes back in a schedule after the first with clawback on: from the flag, what the initial payment takes back,
// the side, the prices, the schedule's own price and market price, its matches, the rates, its fall, T and B.
#[tactic(auto, unfolding(step_pool::specs::Amounts::final_taken))]
pub fn taken_in(
    flag: u32,
    initial: u64,
    side: u32,
    price: [u32; 5],
    own: u32,
    market: u32,
    m: [u32; 5],
    rate: [u32; 5],
    fall: u32,
    total: u64,
    base: u64,
) -> u64
    requires { (Sharing initial (given_at m (five (revised_at side price own market))) fall total base) × (given_at m rate < 2 ^ 64) }
    ensures { result ≡ final_taken flag initial (given_at m (five (revised_at side price own market))) (given_at m rate) fall total base }
{
    if initial == 0 {
        0
    } else if flag == 1 {
        given_back(m, rate)
    } else {
        let revised = given_back(m, revised_rates(side, price, own, market));
        with_share(initial, revised, fall, total, base)
    }
}
