ghost use Rattle.std.specs.Prelude.{◌≤◌};

mod marking;

// The frame in transit: slot and number, the instant at which it leaves, and whether noise has hit it.
#[derive(Clone, Copy)]
pub(crate) struct Transit {
    pub(crate) slot: u8,
    pub(crate) frame: u64,
    pub(crate) end: u64,
    pub(crate) marked: bool,
    ghost low: { slot ≤ 7 },
}
