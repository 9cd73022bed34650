// A line's quantities (document 01, "Quantities"): its rows as they stand in the file, and the operating rows in force.

#![tactic(auto)]

pub mod in_force;
pub mod rows;
