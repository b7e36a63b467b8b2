ghost use Rattle.std.specs.Prelude.{◌≡◌, length};
ghost use Rattle.bus.specs.Rules.{by_distance, by_restoring, by_left, by_period, by_rank};

use crate::layers::Key;
use crate::ready::ReadyFrame;

// A type for each number and not one type that is told which: so the type of a rule names its keys.

// D: the distance of the stream's history.
#[derive(Clone, Copy, Default)]
pub struct Distance;

impl Key for Distance {
    ghost key = { λ _. by_distance };

    fn of(&self, frame: &ReadyFrame) -> u64 {
        u64::from(frame.distance())
    }
}

// R: the restoring distance of the stream's history.
#[derive(Clone, Copy, Default)]
pub struct Restoring;

impl Key for Restoring {
    ghost key = { λ _. by_restoring };

    fn of(&self, frame: &ReadyFrame) -> u64 {
        u64::from(frame.restoring_distance())
    }
}

// E: the time left, so the earlier deadline first.
#[derive(Clone, Copy, Default)]
pub struct TimeLeft;

impl Key for TimeLeft {
    ghost key = { λ _. by_left };

    fn of(&self, frame: &ReadyFrame) -> u64 {
        u64::from(frame.left())
    }
}

// M: the period, so the more frequent stream first.
#[derive(Clone, Copy, Default)]
pub struct Period;

impl Key for Period {
    ghost key = { λ _. by_period };

    fn of(&self, frame: &ReadyFrame) -> u64 {
        u64::from(frame.period())
    }
}

// K: a rank for each slot, given when it is made.
#[derive(Clone, Copy)]
pub struct SlotRank {
    ranks: [u8; 8],
    ghost eight: { length ranks ≡ 8 },
}

impl SlotRank {
    // The key that ranks the slots 0 to 7 by these numbers.
    pub fn new(ranks: [u8; 8]) -> SlotRank
        ensures { result.ranks ≡ ranks }
    {
        SlotRank { ranks }
    }
}

impl Key for SlotRank {
    ghost key = { λ s. by_rank s.ranks };

    fn of(&self, frame: &ReadyFrame) -> u64 {
        u64::from(self.ranks[usize::from(frame.slot())])
    }
}
