// The bytes that the program prints for an input as a whole.
#![tactic(auto)]

mod lines;
mod responding;

pub use responding::respond;
