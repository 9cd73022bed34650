// A line's five bids (document 01, "Units and the day file"): refusals 7 to 10.

#![tactic(auto)]

pub mod breaks;
pub mod prices;
mod unused_slots;
