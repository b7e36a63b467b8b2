ghost use Rattle.std.specs.Prelude.{◌≡◌, ◌+◌, ◌<◌, ◌≤◌};
ghost use Rattle.bench.specs.Figures.{figures_of};
ghost use Rattle.bench.specs.Searches.{machine_limit};
ghost use Rattle.bus.specs.Machines.{state_of};
ghost use Rattle.model.specs.Figures.{figures_over};

use crate::figures::Figures;
use crate::running::Running;
use crate::search::walking::quiet_unit;
use bus::{Machine, Rule, Tally};

impl<R: Rule> Running<R> {
    // The figures of the next quiet units of a bus, none of which passes the last instant of the machine.
    // A loop and not a chain: the bus changes with each unit, and is asked before each whether it will be busy.
    // That no unit passes the last instant is no type, as at `quiet_unit`.
    pub(crate) fn figures_over(&self, mut bus: Machine, units: u64) -> Figures
        requires some { 0 < units }
        requires early { (state_of bus).now + units ≤ machine_limit }
        ensures { figures_of result ≡ figures_over (R.before self.now.rule) (state_of bus) 0 units }
    {
        let mut busy = 0;
        let mut told = Tally::nothing();
        for _ in 0..units {
            busy += u64::from(bus.is_busy_next());
            told = told.together(quiet_unit(&self.rule, &mut bus));
        }
        Figures {
            length: units,
            busy,
            met: told.met,
            missed: told.missed,
            load: 1000 * busy / units,
        }
    }
}
