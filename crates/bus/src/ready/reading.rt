ghost use Rattle.std.specs.Prelude.{◌≡◌};
ghost use Rattle.bus.specs.Stands.{ready_of};
ghost use Rattle.firm.specs.Stands.{firm_of};

use crate::ready::ReadyFrame;
use firm::History;

impl ReadyFrame {
    // The slot of its stream.
    pub fn slot(&self) -> u8
        ensures { result ≡ (ready_of self.now).slot }
    {
        self.slot
    }

    // The period T of its stream.
    pub fn period(&self) -> u16
        ensures { result ≡ (ready_of self.now).period }
    {
        self.period
    }

    // The relative deadline D of its stream.
    pub fn deadline(&self) -> u16
        ensures { result ≡ (ready_of self.now).deadline }
    {
        self.deadline
    }

    // The service time C of its stream.
    pub fn service(&self) -> u16
        ensures { result ≡ (ready_of self.now).service }
    {
        self.service
    }

    // How its stream's latest frames ended, with m and k.
    pub fn history(&self) -> History
        ensures { firm_of result ≡ (ready_of self.now).history }
    {
        self.history
    }

    // The time left until it is due.
    pub fn left(&self) -> u16
        ensures { result ≡ (ready_of self.now).left }
    {
        self.left
    }
}
