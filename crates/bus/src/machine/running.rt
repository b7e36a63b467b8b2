ghost use Rattle.std.specs.Prelude.{◌≡◌};
ghost use Rattle.bus.specs.Machines.{moved, state_of, tally_of, told};
ghost use Rattle.refusal.specs.Tests.{on_ok};

use crate::machine::Machine;
use crate::machine::tally::Tally;
use crate::rule::Rule;
use refusal::Refusal;

// No unit passes from this instant.
const INSTANT_LIMIT: u64 = 2199023255552;

impl Machine {
    // One unit under a rule, noisy or quiet: what is told of its outcomes. At the last instant it is refused, and nothing changes.
    pub fn unit<R: Rule>(&mut self, rule: &R, noisy: bool) -> Result<Tally, Refusal>
        ensures answer { on_ok tally_of result ≡ told (R.before rule.now) noisy (state_of self.old) }
        ensures state { state_of self.new ≡ moved (R.before rule.now) noisy (state_of self.old) }
    {
        if self.state.now == INSTANT_LIMIT {
            return Err(Refusal::InstantLimit);
        }
        Ok(self.state.unit(rule, noisy))
    }
}
