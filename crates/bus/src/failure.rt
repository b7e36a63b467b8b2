ghost use Rattle.std.specs.Prelude.{◌≡◌, Some};
ghost use Rattle.bus.specs.Failures.{failure_slot, lower_failure};
ghost use Rattle.bus.specs.First.{First, first_place};
ghost use Rattle.bus.specs.Machines.{failure_note};
ghost use Rattle.bus.specs.Texts.{failure_text};
ghost use Rattle.model.specs.Tally.{sooner};
ghost use Rattle.std.proofs.Common.{rules};

use crate::first::{Precedes, first_at};
use std::fmt;

// The note of a failure: the slot of the stream, the number of the frame, and when.
#[derive(Clone, Copy, Debug, PartialEq, Eq)]
pub struct Failure {
    pub slot: u8,
    pub frame: u64,
    pub instant: u64,
}

impl Failure {
    // Whether it comes before another: by instant, then by slot. Not a derived order, which would go on by the frame:
    // of two failures of one instant in one slot neither is sooner.
    pub fn is_sooner(&self, other: &Failure) -> bool
        ensures { result ≡ sooner (failure_note self.now) (failure_note other.now) }
    {
        (self.instant, self.slot) < (other.instant, other.slot)
    }
}

impl fmt::Display for Failure {
    ghost output = { λ f. Some (failure_text (failure_note f)) };

    fn fmt<W: fmt::Write>(&self, f: &mut fmt::Formatter<W>) -> fmt::Result {
        let Failure {
            slot,
            frame,
            instant,
        } = self;
        write!(f, "slot {slot} frame {frame} instant {instant}")
    }
}

// The failure in the lower slot first.
#[derive(Clone, Copy)]
pub struct BySlot;

impl Precedes<Failure> for BySlot {
    ghost place = { failure_slot };

    ghost ahead = { λ _. lower_failure };

    ghost total = { Prim.search rules };

    ghost chain = { Prim.search rules };

    fn precedes(&self, a: &Failure, b: &Failure) -> bool {
        a.slot < b.slot
    }
}

// The index of the failure in the lowest slot, if no two have one slot.
pub fn first_failure(failures: &[Failure]) -> Option<usize>
    ensures value { result ≡ first_place lower_failure failures.now }
    ensures first { First failure_slot lower_failure failures.now result }
{
    first_at(&BySlot, failures)
}
