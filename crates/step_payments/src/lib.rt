// The initial, revised and modified payments of one step (document 01, "Payments").

#![tactic(auto)]

pub mod amounts;
pub mod given_back;
pub mod payments;
