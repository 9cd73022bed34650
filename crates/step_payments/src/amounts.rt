// A step's payments in the parts that the code works out: definitions, bounds and laws. What is paid and what is taken back stand apart,
// so that neither is below 0.

// What is paid and what is taken back, by schedule.
#[derive(Clone, Copy)]
pub struct Money {
    pub plus: [u64; 5],
    pub minus: [u64; 5],
}
