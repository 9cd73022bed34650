// The market table's refusals: refusals 4 and 5.
ghost use Rattle.std.specs.Prelude.{◌≡◌, ◌≤◌, ◌<◌, length, ltb};
ghost use Rattle.rules.specs.Fold.{refuse, first};
ghost use Rattle.rules.specs.Layout.{market_word, price_most};
ghost use Rattle.rules.specs.Refusals.{mark_fault, market_price_fault, market_fault};
ghost use Rattle.refusals.specs.Numbers.{fault_of};

use layout::market::{cap_mark, clawback, market_place};
use refusals::Refusal;
use units::{Kind, Price};

// Refusal 4 of word j of the table, a price.
#[tactic(auto, using(crate::proofs::market::Market::price_laws))]
fn check_price(day: &[u8], j: usize) -> Result<(), Refusal>
    requires { (72 ≤ length day.now) × (j < 12) }
    ensures { fault_of result ≡ refuse 4 (ltb price_most (market_word day.now j)) }
{
    Price::read(day, market_place(day, j)).ok_or(Refusal::MarketPrice)?;
    Ok(())
}

// Refusal 4 of the market prices. The loop maintains that no price of a schedule before s is above the limit.
#[tactic(auto, using(crate::proofs::market::Market::market_laws))]
fn check_market_prices(day: &[u8]) -> Result<(), Refusal>
    requires { 72 ≤ length day.now }
    ensures { fault_of result ≡ first (market_price_fault day.now) 5 }
{
    for s in 0..5 {
        check_price(day, s)?;
    }
    Ok(())
}

// Refusal 5 of the cap marks. The loop maintains that no mark of a schedule before s is above 1.
#[tactic(auto, using(crate::proofs::market::Market::market_laws))]
fn check_marks(day: &[u8]) -> Result<(), Refusal>
    requires { 72 ≤ length day.now }
    ensures { fault_of result ≡ first (mark_fault day.now) 5 }
{
    for s in 0..5 {
        if 1 < cap_mark(day, s) {
            return Err(Refusal::MarketMark);
        }
    }
    Ok(())
}

// Refusals 4 and 5.
#[tactic(auto, using(crate::proofs::market::Market::market_laws))]
pub fn check_market(day: &[u8]) -> Result<(), Refusal>
    requires { 72 ≤ length day.now }
    ensures { fault_of result ≡ market_fault day.now }
{
    check_market_prices(day)?;
    check_price(day, 10)?;
    check_marks(day)?;
    if 1 < clawback(day) {
        return Err(Refusal::MarketMark);
    }
    Ok(())
}
