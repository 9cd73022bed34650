// Shares of groups of schedules (document 02, F-1), from a day's totals and adjusted totals.

#![tactic(auto)]

pub mod groups;
pub mod shares;
