// A step's price under the administered price cap, and whether it is paid, by schedule.

#![tactic(auto)]

ghost use Rattle.std.specs.Prelude.{◌≡◌};
ghost use Rattle.rules.specs.Fold.{five};
ghost use Rattle.step_terms.specs.Terms.{capped_at, capped_in, accredited_in, paid_row};

use std::array::from_fn;

// A price, no more than the cap where the mark is 1.
#[tactic(auto, unfolding(crate::specs::Terms::capped_at))]
fn capped(mark: u32, cap: u32, price: u32) -> u32
    ensures { result ≡ capped_at mark cap price }
{
    if mark == 1 { price.min(cap) } else { price }
}

// The same in each schedule.
#[tactic(auto, unfolding(crate::specs::Terms::capped_in))]
pub fn capped_row(mark: [u32; 5], cap: u32, price: [u32; 5]) -> [u32; 5]
    ensures { result ≡ five (capped_in mark cap price) }
{
    from_fn(|s| capped(mark[s], cap, price[s]))
}

// 1 in each schedule in which an accreditation holds.
#[tactic(auto, unfolding(crate::specs::Terms::accredited_in, rules::specs::Steps::holds_in))]
pub fn accredited_row(accreditation: u32) -> [u32; 5]
    ensures { result ≡ five (accredited_in accreditation) }
{
    if accreditation < 32 {
        [u32::from(accreditation == 1); 5]
    } else {
        let set = accreditation - 32;
        from_fn(|s| set >> s & 1)
    }
}

// 1 in each schedule in which a step that ends at `upper` is paid.
#[tactic(auto, unfolding(crate::specs::Terms::paid_row))]
pub fn paid_row(accredited: [u32; 5], hedge: u32, upper: u32) -> [u32; 5]
    ensures { result ≡ paid_row accredited hedge upper }
{
    if upper <= hedge { [0; 5] } else { accredited }
}
