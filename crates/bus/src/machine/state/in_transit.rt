ghost use Rattle.std.specs.Prelude.{◌≡◌, ◌^◌, ◌<◌};
ghost use Rattle.bus.specs.Endings.{told_of};
ghost use Rattle.bus.specs.States.{standing};
ghost use Rattle.model.specs.Machine.{arrivals, leave, mark, tick};
ghost use Rattle.model.specs.Tally.{tally};

use crate::failure::Failure;
use crate::machine::ended::Ended;
use crate::machine::state::State;
use crate::machine::transit::Transit;

impl State {
    // Step 3: in a noisy unit the frame in transit is marked.
    pub(crate) fn mark(&mut self, noisy: bool)
        ensures { standing self.new ≡ mark noisy (standing self.old) }
    {
        if noisy {
            self.transit = self.transit.map(Transit::hit);
        }
    }

    // Step 4: the instant becomes the next one.
    pub(crate) fn tick(&mut self)
        requires { self.old.now < 2 ^ 41 }
        ensures { standing self.new ≡ tick (standing self.old) }
    {
        self.now += 1;
    }

    // Step 5: the frame in transit leaves if its end is now; it has met, or has missed if marked.
    pub(crate) fn leave(&mut self) -> Option<Ended>
        ensures state { standing self.new ≡ leave (standing self.old) }
        ensures told { told_of result ≡ tally (arrivals (standing self.old)) }
    {
        let transit = self.transit?;
        if transit.end != self.now {
            return None;
        }
        self.transit = None;
        let note = Failure {
            slot: transit.slot,
            frame: transit.frame,
            instant: self.now,
        };
        let slot = usize::from(transit.slot);
        // The row is copied and written back: the borrow checker does not cover a change of it in place, by `as_mut` or by `let .. else`.
        let mut row = self.rows[slot]?;
        let ended = row.enter(transit.outcome(), note);
        self.rows[slot] = Some(row);
        Some(ended)
    }
}
