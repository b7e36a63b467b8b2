ghost use Rattle.std.specs.Prelude.{◌≡◌, ◌-◌, ◌^◌, [], Some, if◌then◌else◌};
ghost use Rattle.bus.specs.Endings.{AtMost, told_of};
ghost use Rattle.bus.specs.Failures.{lower_failure};
ghost use Rattle.bus.specs.Machines.{failure_note, tally_of};
ghost use Rattle.bus.specs.Tallies.{capped, together};
ghost use Rattle.model.specs.Tally.{soonest, tally};
ghost use Rattle.std.specs.Option.{option_map};

use crate::failure::{Failure, first_failure};
use crate::machine::ended::Ended;
use crate::machine::tally::Tally;
use firm::Outcome;

impl Tally {
    // What is told of no outcome: the default, under a name whose clause says in the words of the model what it is.
    pub fn nothing() -> Tally
        ensures { tally_of result ≡ tally [] }
    {
        Tally::default()
    }

    // What is told of some outcomes and then of others. A count that would pass 64 bits stays at the most that they hold.
    pub fn together(self, other: Tally) -> Tally
        ensures { tally_of result ≡ capped (2 ^ 64 - 1) (together (tally_of self) (tally_of other)) }
    {
        Tally {
            met: self.met.saturating_add(other.met),
            missed: self.missed.saturating_add(other.missed),
            failures: self.failures.saturating_add(other.failures),
            first: soonest(self.first, other.first),
        }
    }

    // What is told of a frame that has ended.
    fn of(ended: Ended) -> Tally
        ensures { tally_of result ≡ told_of (Some ended) }
    {
        Tally {
            met: u64::from(ended.outcome == Outcome::Met),
            missed: u64::from(ended.outcome == Outcome::Missed),
            failures: u64::from(ended.failure.is_some()),
            first: ended.failure,
        }
    }

    // Tells of one more frame, if it has ended; a unit ends nine at most.
    pub(crate) fn add(&mut self, ended: Option<Ended>)
        requires { AtMost 9 (tally_of self.old) }
        ensures { tally_of self.new ≡ together (tally_of self.old) (told_of ended) }
    {
        if let Some(ended) = ended {
            *self = self.together(Tally::of(ended));
        }
    }
}

// The sooner of two failures; either may be absent.
// A function of its own, as is that of two waiting frames: one for both orders would be a third, since each says its own result.
fn soonest(a: Option<Failure>, b: Option<Failure>) -> Option<Failure>
    ensures { option_map failure_note result ≡ soonest (option_map failure_note a) (option_map failure_note b) }
{
    match (&a, &b) {
        (Some(x), Some(y)) if x.instant == y.instant => Some(lower(*x, *y)),
        (Some(x), Some(y)) if y.is_sooner(x) => b,
        _ => a.or(b),
    }
}

// The failure in the lower slot, of two of one instant, by what is proved of the first of a list; the first of two in one slot.
#[tactic(auto, unfolding(crate::specs::First::walk))]
fn lower(x: Failure, y: Failure) -> Failure
    ensures { result ≡ (if lower_failure y x then y else x) }
{
    match first_failure(&[x, y]) {
        Some(1) => y,
        _ => x,
    }
}
