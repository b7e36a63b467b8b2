ghost use Rattle.std.specs.Prelude.{◌≡◌};
ghost use Rattle.bus.specs.Stands.{ready_of};
ghost use Rattle.firm.specs.Histories.{distance_of, restoring_of};

use crate::ready::ReadyFrame;

impl ReadyFrame {
    // The distance of its stream's history.
    pub fn distance(&self) -> u8
        ensures { result ≡ distance_of (ready_of self.now).history }
    {
        self.history.distance()
    }

    // The restoring distance of its stream's history.
    pub fn restoring_distance(&self) -> u8
        ensures { result ≡ restoring_of (ready_of self.now).history }
    {
        self.history.restoring_distance()
    }
}
