// The quantities of one step (document 01, "Quantities"; document 02, F-2): O, E, A, AGINO, MSIQ, constrained on, and the excess.

#![tactic(auto)]

pub mod constrained;
