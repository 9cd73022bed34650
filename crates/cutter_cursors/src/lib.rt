// The cutter's cursors and the next end.

#![tactic(auto)]

pub mod cursors;
