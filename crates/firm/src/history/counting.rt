ghost use Rattle.std.specs.Prelude.{◌≡◌, ◌^◌};
ghost use Rattle.binomial.specs.Choose.{at_least, count};
ghost use Rattle.firm.specs.Histories.{passes};
ghost use Rattle.firm.specs.Stands.{firm_of};

use crate::history::History;
use binomial::at_least;

impl History {
    // How many of the histories of k outcomes pass: the sum of the binomial coefficients (k over j) for j from m to k.
    pub fn passing_count(&self) -> u32
        ensures sum { result ≡ at_least (firm_of self.now).k (firm_of self.now).m }
        ensures counted { result ≡ count (passes (firm_of self.now).m (firm_of self.now).k) (2 ^ (firm_of self.now).k) }
    {
        at_least(u64::from(self.k), u64::from(self.m)).unwrap()
    }
}
