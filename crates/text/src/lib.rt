// Decimal numbers, rows of numbers and the refused line, in lent bytes.

#![tactic(auto)]

pub mod digits;
pub mod number_rows;
pub mod refused;
