// The open rises and the matches of one step (document 01, "Matching").

#![tactic(auto)]

pub mod matches;
mod open_rises;
