// MSIQ of a step, from the last schedule back (document 01, "Quantities").

#![tactic(auto)]

ghost use Rattle.std.specs.Prelude.{◌≡◌};
ghost use Rattle.rules.specs.Fold.{five};
ghost use Rattle.rules.specs.Quantities as rule;

use numbers::turned;

// Whether a price is beyond the market's, on a side.
pub fn beyond(side: u32, price: u32, market: u32) -> bool
    ensures { result ≡ rule.beyond side price market }
{
    turned(side, market) < turned(side, price)
}

// MSIQ, from the side, the prices, the market prices and E. Where the price isn't beyond the market's it is at most that of the next schedule.
pub fn msiq(side: u32, price: [u32; 5], market: [u32; 5], e: [u32; 5]) -> [u32; 5]
    ensures { result ≡ five (rule.msiq side price market e) }
{
    let mut q = e;
    for s in (0..4).rev() {
        if !beyond(side, price[s], market[s]) {
            q[s] = q[s].min(q[s + 1]);
        }
    }
    q
}
