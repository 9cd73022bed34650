// The answers of the entry points and what one step is worked out from, as plain data. What they hold is defined in specs/:
// `cut_answer`, `view_answer`, `uplift_answer` and `step_of`. The first two answers are laid out as in C, the 64-bit fields first, so that no byte is left free.

#![tactic(auto)]

// The cutter's answer for one line (document 01, "Steps and prices"). Places past the count are 0.
#[repr(C)]
#[derive(Clone, Copy)]
pub struct Cut {
    // for each schedule a word of missing-price flags, bit k for step k
    pub flags: [u64; 5],
    // 0, or the refusal
    pub number: u32,
    // how many steps
    pub count: u32,
    // for each schedule how many flags are set
    pub missing: [u32; 5],
    // upper ends, rising
    pub ends: [u32; 56],
    // uncapped prices: step k in schedule s (from 0) at 56 s + k
    pub prices: [u32; 280],
    // always 0: it makes the size a multiple of 8
    pub reserved: u32,
}

// What no step of a line took of its operating and pricing totals and of its effective actual (document 02, F-2).
#[repr(C)]
#[derive(Clone, Copy)]
pub struct Excess {
    pub operating: [u32; 5],
    pub pricing: [u32; 5],
    pub actual: u32,
}

// The step view's answer (document 01, "Totals and book"). Arrays of five are by schedule.
#[repr(C)]
#[derive(Clone, Copy)]
pub struct View {
    // the four kinds of payment
    pub initial: [i64; 5],
    pub revised: [i64; 5],
    pub modified: [i64; 5],
    pub finals: [i64; 5],
    // 0, or the refusal
    pub number: u32,
    pub end: u32,
    pub width: u32,
    // effective actual on the step
    pub actual: u32,
    // capped
    pub price: [u32; 5],
    pub flag: [u32; 5],
    // O, E, AGINO, MSIQ, C
    pub operating: [u32; 5],
    pub pricing: [u32; 5],
    pub agino: [u32; 5],
    pub msiq: [u32; 5],
    pub constrained: [u32; 5],
    // m(1,2) m(1,3) m(2,3) m(1,4) .. m(4,5)
    pub matches: [u32; 10],
    // the line's, the same on each of its steps
    pub excess: Excess,
}

// Each schedule's uplift (document 02, F-1).
#[derive(Clone, Copy)]
pub struct Uplift {
    pub shares: [i64; 5],
    // 0, or the refusal
    pub number: u32,
}

// What one step's figures are worked out from. Arrays are by schedule.
#[derive(Clone, Copy)]
pub struct Step {
    // 0 injection, 1 withdrawal
    pub side: u32,
    // the upper end of the step before, and the step's own
    pub lower: u32,
    pub upper: u32,
    // capped
    pub price: [u32; 5],
    pub flag: [u32; 5],
    // market prices
    pub market: [u32; 5],
    // 1 where the step is paid, else 0
    pub paid: [u32; 5],
    // the line's pricing and operating totals, and its effective actual
    pub pricing: [u32; 5],
    pub operating: [u32; 5],
    pub actual: u32,
    // M of the line, where its steps end
    pub most: u32,
}
