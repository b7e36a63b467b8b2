ghost use Rattle.bench.specs.Searches.{RoundFound, Searchable};
ghost use Rattle.bus.specs.Machines.{state_of};

use crate::running::Running;
use crate::search::agreeing::agree;
use crate::search::round::Round;
use bus::{Failure, Machine, Rule};

// Histories stand again at this boundary at the latest: three times as far as a table has histories at most.
const LAST_BOUNDARY: u64 = 3145728;

impl<R: Rule> Running<R> {
    // A round of the least length, from a bus at a boundary: the histories of one boundary are kept and compared with those of the
    // boundaries after it, twice as many each time. It ends at the first failure.
    // A loop and not a chain: the walker goes on with each boundary.
    pub(crate) fn round(&self, first: Machine, period: u64) -> Result<Round, Failure>
        requires { Searchable (state_of first) period }
        ensures { RoundFound (R.before self.now.rule) (state_of first) result }
    {
        let mut kept = first;
        let mut from = 0;
        let mut walker = first;
        for to in 1..=LAST_BOUNDARY {
            self.walk(&mut walker, period)?;
            if agree(&kept, &walker) {
                return Ok(Round { from, to });
            }
            if to > 2 * from {
                kept = walker;
                from = to;
            }
        }
        unreachable!()
    }
}
