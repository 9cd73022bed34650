// What a step takes of a line's totals, and what no step takes of them (document 01, "Quantities"; document 02, F-2).

#![tactic(auto)]

ghost use Rattle.std.specs.Prelude.{◌≡◌};
ghost use Rattle.rules.specs.Fold.{five, at};
ghost use Rattle.rules.specs.Quantities.{allocated};
ghost use Rattle.step_allocation.specs.Rows.{allocation, allocations, operating_allocations, pricing_allocations, actual_allocation};

use rules::Step;

// What the step takes, and what no step of the line takes, of one quantity or of the totals of the five schedules.
#[derive(Clone, Copy)]
pub struct Allocation<T> {
    pub taken: T,
    pub excess: T,
}

// What the step from l to u takes of q.
#[tactic(auto, unfolding(rules::specs::Quantities::allocated))]
pub fn taken(q: u32, l: u32, u: u32) -> u32
    ensures { result ≡ allocated q l u }
{
    q.min(u).saturating_sub(l)
}

// What it takes of the totals q of the five schedules.
pub fn taken_row(q: [u32; 5], l: u32, u: u32) -> [u32; 5]
    ensures { result ≡ five (λ s. allocated (at q s) l u) }
{
    q.map(|total| taken(total, l, u))
}

// q on the step from l to u of a line whose steps end at `most`
#[tactic(auto, unfolding(crate::specs::Rows::allocation, rules::specs::Quantities::untaken))]
pub fn allocate(q: u32, l: u32, u: u32, most: u32) -> Allocation<u32>
    ensures { result ≡ allocation q l u most }
{
    Allocation {
        taken: taken(q, l, u),
        excess: q.saturating_sub(most),
    }
}

// The totals q of the five schedules on that step.
#[tactic(auto, unfolding(crate::specs::Rows::allocations, rules::specs::Quantities::untaken))]
pub fn allocate_all(q: [u32; 5], l: u32, u: u32, most: u32) -> Allocation<[u32; 5]>
    ensures { result ≡ allocations q l u most }
{
    Allocation {
        taken: taken_row(q, l, u),
        excess: q.map(|total| total.saturating_sub(most)),
    }
}

// O, and what no step takes
#[tactic(auto, unfolding(crate::specs::Rows::allocations, crate::specs::Rows::operating_allocations, rules::specs::Payments::operating_on, rules::specs::Payments::excess_of))]
pub fn operating_on(x: Step) -> Allocation<[u32; 5]>
    ensures { result ≡ operating_allocations x }
{
    allocate_all(x.operating, x.lower, x.upper, x.most)
}

// E, likewise
#[tactic(auto, unfolding(crate::specs::Rows::allocations, crate::specs::Rows::pricing_allocations, rules::specs::Payments::pricing_on, rules::specs::Payments::excess_of))]
pub fn pricing_on(x: Step) -> Allocation<[u32; 5]>
    ensures { result ≡ pricing_allocations x }
{
    allocate_all(x.pricing, x.lower, x.upper, x.most)
}

// A, likewise
#[tactic(auto, unfolding(crate::specs::Rows::allocation, crate::specs::Rows::actual_allocation, rules::specs::Payments::actual_on, rules::specs::Payments::excess_of))]
pub fn actual_on(x: Step) -> Allocation<u32>
    ensures { result ≡ actual_allocation x }
{
    allocate(x.actual, x.lower, x.upper, x.most)
}
