// The rates at which changes of the quantity constrained on are paid (document 01, "Payments").
ghost use Rattle.std.specs.Prelude.{◌≡◌};
ghost use Rattle.rules.specs.Fold.{five};
ghost use Rattle.rules.specs.Payments as paper;
ghost use Rattle.step_changes.specs.Changes.{revised_at};

use numbers::turned;
use rules::Step;
use std::array::from_fn;

// How far a price is beyond the market's, on a side.
#[tactic(auto, using(numbers::specs::Turned::turned_apart))]
fn beyond_by(side: u32, price: u32, market: u32) -> u32
    ensures { result ≡ paper.beyond_by side price market }
{
    turned(side, price).saturating_sub(turned(side, market))
}

// R
#[tactic(auto, unfolding(rules::specs::Payments::rate))]
pub fn rates(x: Step) -> [u32; 5]
    ensures { result ≡ five (paper.rate x) }
{
    from_fn(|s| beyond_by(x.side, x.price[s], x.market[s]))
}

// The rate at which the match of a fall with a rise at `price` is revised, where the fall's own price and market price are `own` and `market`.
#[tactic(auto, using(numbers::specs::Turned::turned_revised))]
fn revised_rate(side: u32, price: u32, own: u32, market: u32) -> u32
    ensures { result ≡ paper.beyond_by side (paper.milder side price own) market }
{
    let milder = turned(side, price).min(turned(side, own));
    milder.saturating_sub(turned(side, market))
}

// The same for a fall's matches with the rises of the five schedules.
#[tactic(auto, unfolding(crate::specs::Changes::revised_at))]
pub fn revised_rates(side: u32, price: [u32; 5], own: u32, market: u32) -> [u32; 5]
    ensures { result ≡ five (revised_at side price own market) }
{
    price.map(|p| revised_rate(side, p, own, market))
}
