ghost use Rattle.std.specs.Prelude.{◌≡◌};
ghost use Rattle.firm.specs.Histories.{after, passing};
ghost use Rattle.firm.specs.Outcomes.{bit};
ghost use Rattle.firm.specs.Stands.{firm_of};

use crate::history::History;
use crate::outcome::Outcome;

impl History {
    // The history after one more outcome; the oldest leaves.
    pub fn enter(&self, outcome: Outcome) -> History
        ensures { firm_of result ≡ after (firm_of self.now) (bit outcome) }
    {
        let moved = 2 * u32::from(self.bits) + u32::from(outcome);
        History {
            m: self.m,
            k: self.k,
            bits: self.latest(moved) as u16,
        }
    }

    // Whether at least m of the k outcomes are met.
    pub fn passes(&self) -> bool
        ensures { result ≡ passing (firm_of self.now) }
    {
        self.met_among(u32::from(self.bits)) >= u32::from(self.m)
    }
}
