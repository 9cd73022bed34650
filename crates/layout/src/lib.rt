// Where the fields of a day file stand (document 01, "Units and the day file"; document 02, F-5), and what reads each: no other crate has an offset.

#![tactic(auto)]

pub mod bids;
pub mod fields;
pub mod header;
pub mod market;
pub mod records;
