// The pool of a side (document 01, "Payments"): T, B and whether a revised payment differs, step by step.

#![tactic(auto)]

pub mod adding;
pub mod pool_amounts;
pub mod skipped_steps;
