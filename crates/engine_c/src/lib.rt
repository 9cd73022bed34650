// The engine for programs in C and other languages; include/mewikofu.h declares its functions.

#![tactic(auto)]

mod line_viewing;
mod part;
mod settlement;
mod uplifting;
mod viewing;
