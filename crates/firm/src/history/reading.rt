ghost use Rattle.std.specs.Prelude.{◌≡◌};
ghost use Rattle.firm.specs.Stands.{firm_of};

use crate::history::History;

impl History {
    // How many of any k consecutive frames have to be on time.
    pub fn m(&self) -> u8
        ensures { result ≡ (firm_of self.now).m }
    {
        self.m
    }

    // How many outcomes the history holds.
    pub fn k(&self) -> u8
        ensures { result ≡ (firm_of self.now).k }
    {
        self.k
    }

    // The outcomes, bit 0 the newest, 1 for met.
    pub fn bits(&self) -> u16
        ensures { result ≡ (firm_of self.now).bits }
    {
        self.bits
    }
}
