ghost use Rattle.std.specs.Prelude.{◌≡◌, not};
ghost use Rattle.bus.specs.Endings.{is_met};
ghost use Rattle.bus.specs.Rows.{transit_of};
ghost use Rattle.model.specs.Machine.{hit};

use crate::machine::transit::Transit;
use firm::Outcome;

impl Transit {
    // The frame in transit after noise has hit it.
    pub(crate) fn hit(mut self) -> Transit
        ensures { transit_of result ≡ hit (transit_of self) }
    {
        self.marked = true;
        self
    }

    // How the frame ends once it leaves: met, or missed if marked.
    pub(crate) fn outcome(&self) -> Outcome
        ensures { is_met result ≡ not self.now.marked }
    {
        if self.marked {
            Outcome::Missed
        } else {
            Outcome::Met
        }
    }
}
