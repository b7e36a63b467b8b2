ghost use Rattle.std.specs.Prelude.{◌-◌, ◌*◌, ◌≤◌};
ghost use Rattle.bench.specs.Searches.{EarliestFound, Searchable};
ghost use Rattle.bus.specs.Machines.{state_of};
ghost use Rattle.model.specs.Forecast.{table_of};
ghost use Rattle.model.specs.Tables.{histories};
ghost use Rattle.promise.specs.Answers.{Returns};

use crate::running::Running;
use crate::search::agreeing::agree;
use crate::search::round::Round;
use bus::{Failure, Machine, Rule};

impl<R: Rule> Running<R> {
    // The earliest round that is as long as one that is known, from a bus at a boundary: two walkers that far apart go on until their
    // histories agree. A loop and not a chain: both go on with each boundary, and the first failure ends it.
    pub(crate) fn earliest_round(
        &self,
        first: Machine,
        period: u64,
        known: Round,
    ) -> Result<Round, Failure>
        requires state { Searchable (state_of first) period }
        requires returns { Returns (R.before self.now.rule) (state_of first) known.from (known.to - known.from) }
        requires soon { known.to ≤ 3 * histories (table_of (state_of first)) }
        ensures { EarliestFound (R.before self.now.rule) (state_of first) result }
    {
        let length = known.to - known.from;
        let mut near = first;
        let mut far = first;
        self.walk(&mut far, length * period)?;
        for from in 0..known.from {
            if agree(&near, &far) {
                let to = from + length;
                return Ok(Round { from, to });
            }
            self.walk(&mut near, period)?;
            self.walk(&mut far, period)?;
        }
        Ok(known)
    }
}
