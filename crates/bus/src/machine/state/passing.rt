ghost use Rattle.std.specs.Prelude.{◌≡◌, ◌^◌, ◌<◌};
ghost use Rattle.bus.specs.Machines.{tally_of};
ghost use Rattle.bus.specs.States.{standing};
ghost use Rattle.laws.specs.Sound.{Sound};
ghost use Rattle.model.specs.Machine.{outcomes, unit};
ghost use Rattle.model.specs.Tally.{tally};

use crate::machine::state::State;
use crate::machine::tally::Tally;
use crate::rule::Rule;

impl State {
    // One unit, noisy or quiet: its six steps, and what is told of its outcomes.
    pub(crate) fn unit<R: Rule>(&mut self, rule: &R, noisy: bool) -> Tally
        requires { (self.old.now < 2 ^ 41) × (∥ Sound (standing self.old) ∥₁) }
        ensures state { standing self.new ≡ unit (R.before rule.now) noisy (standing self.old) }
        ensures told { tally_of result ≡ tally (outcomes (R.before rule.now) noisy (standing self.old)) }
    {
        self.release();
        self.start(rule);
        self.mark(noisy);
        self.tick();
        let mut told = Tally::nothing();
        told.add(self.leave());
        told.together(self.drop())
    }
}
