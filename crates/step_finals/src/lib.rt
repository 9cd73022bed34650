// The final payments of one step (document 01, "Payments").

#![tactic(auto)]

pub mod final_shares;
pub mod finals;
