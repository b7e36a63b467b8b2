// The histories at boundary `from` stand again at boundary `to`.
#[derive(Clone, Copy)]
pub(crate) struct Round {
    pub(crate) from: u64,
    pub(crate) to: u64,
}
