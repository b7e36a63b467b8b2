ghost use Rattle.std.specs.Prelude.{◌≡◌, ◌-◌, ◌%◌, ◌<◌};
ghost use Rattle.bench.specs.Answers.{answer_of};
ghost use Rattle.bench.specs.Searches.{EarliestFound, FirstFound};
ghost use Rattle.bench.specs.Stands.{state_in};
ghost use Rattle.model.specs.Forecast.{Tells};
ghost use Rattle.model.specs.Tables.{hyper_period};
ghost use Rattle.streams.specs.Tables.{table_of};

use crate::answer::Forecast;
use crate::running::Running;
use crate::search::round::Round;
use bus::{Failure, Machine, Rule};

// How many units lie between an instant and the first boundary not below it.
pub(super) fn units_to_boundary(instant: u64, period: u64) -> u64
    requires { 0 < period }
    ensures { result ≡ (period - instant % period) % period }
{
    (period - instant % period) % period
}

impl<R: Rule> Running<R> {
    // The hyper-period: so many units lie between two boundaries.
    pub(crate) fn period(&self) -> u64
        ensures { result ≡ hyper_period (table_of self.now.table) }
    {
        u64::from(self.table.hyper_period())
    }

    // The bus at the first boundary, or the first failure before it. The period is given, since finding it can take longer than all else.
    fn first_boundary(&self, period: u64) -> Result<Machine, Failure>
        requires { period ≡ hyper_period (table_of self.now.table) }
        ensures { FirstFound (R.before self.now.rule) (state_in self.now) (hyper_period (table_of self.now.table)) result }
    {
        let mut bus = self.machine;
        let units = units_to_boundary(bus.now(), period);
        self.walk(&mut bus, units)?;
        Ok(bus)
    }

    // The round with which the forecast holds, or the first failure.
    pub(super) fn search(&self) -> Result<Round, Failure>
        ensures { EarliestFound (R.before self.now.rule) (state_in self.now) result }
    {
        let period = self.period();
        let first = self.first_boundary(period)?;
        let round = self.round(first, period)?;
        self.earliest_round(first, period, round)
    }

    // What is foretold of the quiet schedule from here: that it never has a dynamic failure, with the only two boundaries up to the later at
    // which all histories agree, or its first failure.
    pub fn forecast(&self) -> Forecast
        ensures { Tells (R.before self.now.rule) (state_in self.now) (answer_of result) }
    {
        self.search().into()
    }
}
