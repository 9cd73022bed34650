// Rises and falls of the quantity constrained on, and the rates at which they are paid (document 01, "Matching", "Payments").

#![tactic(auto)]

pub mod rates;
pub mod rises_falls;
