use crate::failure::Failure;
use firm::Outcome;

// How a frame ended, and the dynamic failure that this is, if it is one.
#[derive(Clone, Copy)]
pub(crate) struct Ended {
    pub(crate) outcome: Outcome,
    pub(crate) failure: Option<Failure>,
}
