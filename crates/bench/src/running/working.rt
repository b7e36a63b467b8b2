ghost use Rattle.std.specs.Prelude.{◌≡◌, ◌+◌, ◌≤◌, false, replicate};
ghost use Rattle.bench.specs.Stands.{state_in};
ghost use Rattle.bus.specs.Machines.{state_of, tally_of};
ghost use Rattle.model.specs.Bench.{advanced, disturbed, last_instant, state_after, tally_after, worked};
ghost use Rattle.refusal.specs.Tests.{kept, on_ok};

use crate::running::Running;
use crate::search::walking::quiet_unit;
use bus::{Machine, Rule, Tally};
use refusal::Refusal;

// No run reaches a later instant.
const LAST_INSTANT: u64 = 1099511627776;

// No call works more units.
const MOST_UNITS: u64 = 65535;

impl<R: Rule> Running<R> {
    // Works quiet units and tells of their outcomes, or gives the first refusal: more than 65,535 units, an instant above its limit.
    pub fn advance(&mut self, units: u64) -> Result<Tally, Refusal>
        ensures answer { on_ok tally_of result ≡ on_ok tally_after (advanced (R.before self.old.rule) (state_in self.old) units) }
        ensures state { state_in self.new ≡ kept (state_in self.old) (on_ok state_after (advanced (R.before self.old.rule) (state_in self.old) units)) }
        ensures table { self.new.table ≡ self.old.table }
        ensures rule { self.new.rule ≡ self.old.rule }
    {
        if units > MOST_UNITS {
            return Err(Refusal::UnitCount);
        }
        if self.machine.now() + units > LAST_INSTANT {
            return Err(Refusal::InstantLimit);
        }
        Ok(quiet_units(&self.rule, &mut self.machine, units))
    }

    // Works one noisy unit and tells of its outcomes, or refuses an instant above its limit.
    pub fn disturb(&mut self) -> Result<Tally, Refusal>
        ensures answer { on_ok tally_of result ≡ on_ok tally_after (disturbed (R.before self.old.rule) (state_in self.old)) }
        ensures state { state_in self.new ≡ kept (state_in self.old) (on_ok state_after (disturbed (R.before self.old.rule) (state_in self.old))) }
        ensures table { self.new.table ≡ self.old.table }
        ensures rule { self.new.rule ≡ self.old.rule }
    {
        if self.machine.now() >= LAST_INSTANT {
            return Err(Refusal::InstantLimit);
        }
        self.machine.unit(&self.rule, true)
    }
}

// Works quiet units of a bus, none of which passes the last instant, and tells of their outcomes.
// A loop of its own: a walk ends at the first failure and adds nothing up. That no unit passes the last instant is no type, as at `quiet_unit`.
fn quiet_units<R: Rule>(rule: &R, bus: &mut Machine, units: u64) -> Tally
    requires few { units ≤ 65535 }
    requires early { (state_of bus.old).now + units ≤ last_instant }
    ensures told { tally_of result ≡ (worked (R.before rule.now) (state_of bus.old) (replicate units false)).told }
    ensures state { state_of bus.new ≡ (worked (R.before rule.now) (state_of bus.old) (replicate units false)).state }
{
    let mut told = Tally::nothing();
    for _ in 0..units {
        told = told.together(quiet_unit(rule, bus));
    }
    told
}
