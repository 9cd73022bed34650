// The text of the cutter's answer, in lent bytes.

#![tactic(auto)]

pub mod answer;
mod rows;
