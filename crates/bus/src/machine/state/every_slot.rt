ghost use Rattle.std.specs.Prelude.{◌≡◌};
ghost use Rattle.bus.specs.Endings.{AtMost};
ghost use Rattle.bus.specs.Machines.{tally_of};
ghost use Rattle.bus.specs.Rows.{row_of, rows_of};
ghost use Rattle.bus.specs.States.{standing};
ghost use Rattle.bus.specs.Waiting.{waits_from};
ghost use Rattle.model.specs.Machine.{drop, drops, release};
ghost use Rattle.model.specs.Tally.{tally};
ghost use Rattle.std.specs.List.{list_any};
ghost use Rattle.std.specs.Option.{option_map};

use crate::machine::state::State;
use crate::machine::tally::Tally;

impl State {
    // Whether a frame waits in some slot after the releases of this instant.
    pub(crate) fn is_waiting(&self) -> bool
        ensures { result ≡ list_any (λ slot. waits_from self.entry.now.now (option_map row_of slot)) self.entry.now.rows }
    {
        self.rows
            .iter()
            .any(|slot| slot.is_some_and(|row| row.waits_from(self.now)))
    }

    // Step 1: each occupied slot whose period divides the instant releases a frame, which waits.
    // A loop and not a chain, as in step 6: the rows change in place. Not over `iter_mut().flatten()`: its invariant does not see the slots,
    // and the proof did not close.
    pub(crate) fn release(&mut self)
        ensures { standing self.new ≡ release (standing self.old) }
    {
        let instant = self.now;
        for slot in self.rows.iter_mut() {
            if let Some(row) = slot {
                row.release(instant);
            }
        }
    }

    // Step 6: each waiting frame that can no longer be sent in time is dropped and has missed. What is told of these.
    pub(crate) fn drop(&mut self) -> Tally
        ensures state { standing self.new ≡ drop (standing self.old) }
        ensures told { tally_of result ≡ tally (drops self.old.now 0 (rows_of self.old.rows)) }
        ensures few { AtMost 8 (tally_of result) }
    {
        let instant = self.now;
        let mut told = Tally::nothing();
        for (i, slot) in self.rows.iter_mut().enumerate() {
            if let Some(row) = slot {
                told.add(row.drop(i as u8, instant));
            }
        }
        told
    }
}
