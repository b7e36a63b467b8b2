use crate::failure::Failure;

mod telling;

// What is told of a unit: how many frames have met and how many have missed, how many of these outcomes were dynamic failures,
// and the first of the failures.
#[derive(Clone, Copy, Debug, Default, PartialEq, Eq)]
pub struct Tally {
    pub met: u64,
    pub missed: u64,
    pub failures: u64,
    pub first: Option<Failure>,
}
