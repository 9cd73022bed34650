// What a step is worked out from: the day's and the line's part in it, put together with the cutter's.

#![tactic(auto)]

pub mod day_line;
pub mod inputs;
