ghost use Rattle.std.specs.Prelude.{◌≡◌, ℕ, ◌+◌};
ghost use Rattle.firm.specs.Histories.{distance_of, restoring_of, turned, turns, Lost, Regained, PlaceOf};
ghost use Rattle.firm.specs.Searches.{Least};
ghost use Rattle.firm.specs.Stands.{firm_of};

use crate::history::History;
use crate::outcome::Outcome;

impl History {
    // The least number of misses in a row after which the history no longer passes: 0 where it does not pass.
    pub fn distance(&self) -> u8
        ensures value { result ≡ distance_of (firm_of self.now) }
        ensures least { Least (Lost (firm_of self.now)) result }
        ensures place { (l : ℕ) × PlaceOf (firm_of self.now) l × (result + l ≡ (firm_of self.now).k + 1) }
    {
        self.repeats_until_turned(Outcome::Missed)
    }

    // The least number of mets in a row after which the history passes: 0 where it passes.
    pub fn restoring_distance(&self) -> u8
        ensures value { result ≡ restoring_of (firm_of self.now) }
        ensures least { Least (Regained (firm_of self.now)) result }
    {
        self.repeats_until_turned(Outcome::Met)
    }

    // How many times in a row the outcome has to come: a met until the history passes, a miss until it no longer passes.
    fn repeats_until_turned(&self, outcome: Outcome) -> u8
        ensures { result ≡ turns outcome (firm_of self.now) }
    {
        let mut history = *self;
        // A loop and not a chain: `successors` enters one outcome more than is asked about, in each comparison of two
        // frames, and the check alone does not find what the chain returns.
        for n in 0..self.k {
            if history.is_turned(outcome) {
                return n;
            }
            history = history.enter(outcome);
        }
        self.k
    }

    // Whether the history passes, of a met, and whether it does not, of a miss.
    fn is_turned(&self, outcome: Outcome) -> bool
        ensures { result ≡ turned outcome (firm_of self.now) 0 }
    {
        // A match and not a closure from the caller: what turns a history follows from the outcome.
        match outcome {
            Outcome::Met => self.passes(),
            Outcome::Missed => !self.passes(),
        }
    }
}
