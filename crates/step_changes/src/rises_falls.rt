// Rises and falls of the quantity constrained on, by schedule, and their products with rates.
ghost use Rattle.std.specs.Prelude.{◌≡◌, cond, ◌*◌, eqb};
ghost use Rattle.rules.specs.Fold.{five};
ghost use Rattle.rules.specs.Matching as rule;
ghost use Rattle.step_changes.specs.Changes.{only_paid, product_in};

use std::array::from_fn;

pub fn product(a: u32, b: u32) -> u64
    ensures { result ≡ a * b }
{
    u64::from(a) * u64::from(b)
}

// C(s-1), which is 0 before schedule 1
#[tactic(auto, unfolding(rules::specs::Matching::earlier, rules::specs::Fold::before))]
fn earlier(c: [u32; 5]) -> [u32; 5]
    ensures { result ≡ five (rule.earlier c) }
{
    [0, c[0], c[1], c[2], c[3]]
}

// U
#[tactic(auto, unfolding(rules::specs::Matching::rise))]
pub fn rises(c: [u32; 5]) -> [u32; 5]
    ensures { result ≡ five (rule.rise c) }
{
    let before = earlier(c);
    from_fn(|s| c[s].saturating_sub(before[s]))
}

// D
#[tactic(auto, unfolding(rules::specs::Matching::fall))]
pub fn falls(c: [u32; 5]) -> [u32; 5]
    ensures { result ≡ five (rule.fall c) }
{
    let before = earlier(c);
    from_fn(|s| before[s].saturating_sub(c[s]))
}

fn if_paid(paid: u32, q: u32) -> u32
    ensures { result ≡ cond (eqb paid 1) q 0 }
{
    if paid == 1 { q } else { 0 }
}

// Quantities where the step is paid, else 0.
#[tactic(auto, unfolding(crate::specs::Changes::only_paid))]
pub fn only_paid(paid: [u32; 5], q: [u32; 5]) -> [u32; 5]
    ensures { result ≡ five (only_paid paid q) }
{
    from_fn(|s| if_paid(paid[s], q[s]))
}

#[tactic(auto, unfolding(crate::specs::Changes::product_in))]
pub fn products(a: [u32; 5], b: [u32; 5]) -> [u64; 5]
    ensures { result ≡ five (product_in a b) }
{
    from_fn(|s| product(a[s], b[s]))
}
