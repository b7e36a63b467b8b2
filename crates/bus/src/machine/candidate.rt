use crate::ready::ReadyFrame;

// A waiting frame: its number and what a ranking rule is shown of it.
#[derive(Clone, Copy)]
pub(crate) struct Candidate {
    pub(crate) frame: u64,
    pub(crate) shown: ReadyFrame,
}
