// A bid's prices: refusal 9, and refusals 9 and 10 one after the other.
ghost use Rattle.std.specs.Prelude.{◌≡◌, ◌≤◌, ◌<◌};
ghost use Rattle.rules.specs.Fold.{first};
ghost use Rattle.rules.specs.Layout.{bid_count};
ghost use Rattle.rules.specs.Refusals.{out_of_order, price_fault};
ghost use Rattle.refusals.specs.Numbers.{fault_of};
ghost use Rattle.line_bids.specs.Slots.{slots_fault};

use crate::unused_slots::check_unused;
use layout::bids::{bid_price, price_place};
use layout::fields::side;
use layout::header::Line;
use numbers::turned;
use refusals::Refusal;
use units::{Kind, Price};

// Whether price q after price p is out of order on a side.
pub fn out_of_order(sd: u32, p: u32, q: u32) -> bool
    ensures { result ≡ out_of_order sd p q }
{
    turned(sd, q) < turned(sd, p)
}

// Refusal 9 at step j.
#[tactic(auto, using(crate::proofs::prices::Prices::price_cases))]
pub fn check_price(line: &Line, s: usize, j: usize) -> Result<(), Refusal>
    requires { (s < 5) × (j < 11) }
    ensures { fault_of result ≡ price_fault line.now s j }
{
    let price = Price::read(line, price_place(s, j)).ok_or(Refusal::Prices)?;
    if 0 < j && out_of_order(side(line), bid_price(line, s, j - 1), price.units) {
        Err(Refusal::Prices)
    } else {
        Ok(())
    }
}

// Refusal 9 of the whole bid. The loop maintains that no step before j has this fault.
#[tactic(auto, using(laws::specs::Folds::first_none, laws::specs::Folds::first_more, laws::specs::Folds::first_stop, refusals::specs::Laws::is_refused))]
fn check_prices(line: &Line, s: usize, count: usize) -> Result<(), Refusal>
    requires { (s < 5) × (count ≤ 11) }
    ensures { fault_of result ≡ first (price_fault line.now s) count }
{
    for j in 0..count {
        check_price(line, s, j)?;
    }
    Ok(())
}

// Refusals 9 and 10 of the whole bid.
#[tactic(auto, using(laws::specs::Folds::part_stops, laws::specs::Folds::part_passes, refusals::specs::Laws::is_refused), unfolding(crate::specs::Slots::slots_fault))]
pub fn check_slots(line: &Line, s: usize, count: usize) -> Result<(), Refusal>
    requires { (s < 5) × (count ≤ 11) × (count ≡ bid_count line.now s) }
    ensures { fault_of result ≡ slots_fault line.now s }
{
    check_prices(line, s, count)?;
    check_unused(line, s, count)
}
