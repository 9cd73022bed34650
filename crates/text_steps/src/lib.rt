// What the program `steps` prints, in lent bytes.

#![tactic(auto)]

pub mod steps_text;
