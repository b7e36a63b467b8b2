ghost use Rattle.std.specs.Prelude.{◌≡◌, Bool};
ghost use Rattle.bus.specs.Machines.{state_of};
ghost use Rattle.model.specs.Figures.{busy};
ghost use Rattle.model.specs.Ready.{Ready};

use crate::machine::Machine;

impl Machine {
    // Whether the next unit is busy, under whatever rule: a frame is in transit, or one waits after the releases of this instant,
    // so that one starts.
    pub fn is_busy_next(&self) -> bool
        ensures { (before : Ready → Ready → Bool) → result ≡ busy before (state_of self.now) }
    {
        self.state.transit.is_some() || self.state.is_waiting()
    }
}
