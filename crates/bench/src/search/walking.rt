ghost use Rattle.std.specs.Prelude.{◌≡◌, ◌+◌, ◌<◌, ◌≤◌, false};
ghost use Rattle.bench.specs.Searches.{Walks, machine_limit};
ghost use Rattle.bus.specs.Machines.{state_of, tally_of};
ghost use Rattle.model.specs.Machine.{outcomes, unit};
ghost use Rattle.model.specs.Tally.{tally};

use crate::running::Running;
use bus::{Failure, Machine, Rule, Tally};

// Works one quiet unit of a bus that has not come to the machine's last instant, and tells of its outcomes.
// The rule and the bus are given, and not the bench, so that a bench that advances works its own bus in place.
// That no unit passes the last instant is asked of each call, here and where several are worked, and is no type: a type for it would have
// to hold the bus and the units to come, and each unit would make another.
pub(crate) fn quiet_unit<R: Rule>(rule: &R, bus: &mut Machine) -> Tally
    requires { (state_of bus.old).now < machine_limit }
    ensures told { tally_of result ≡ tally (outcomes (R.before rule.now) false (state_of bus.old)) }
    ensures state { state_of bus.new ≡ unit (R.before rule.now) false (state_of bus.old) }
{
    bus.unit(rule, false).unwrap()
}

impl<R: Rule> Running<R> {
    // Works quiet units of a bus, up to the first that fails: gives its first failure.
    // A loop and not a chain: the bus changes with each unit.
    pub(crate) fn walk(&self, bus: &mut Machine, units: u64) -> Result<(), Failure>
        requires { (state_of bus.old).now + units ≤ machine_limit }
        ensures { Walks (R.before self.now.rule) (state_of bus.old) units (state_of bus.new) result }
    {
        for _ in 0..units {
            if let Some(failure) = quiet_unit(&self.rule, bus).first {
                return Err(failure);
            }
        }
        Ok(())
    }
}
