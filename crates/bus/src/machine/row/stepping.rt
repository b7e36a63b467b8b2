ghost use Rattle.std.specs.Prelude.{◌≡◌, ◌^◌, ◌≤◌};
ghost use Rattle.bus.specs.Endings.{told_of};
ghost use Rattle.bus.specs.Rows.{row_of};
ghost use Rattle.model.specs.Machine.{drop_row, dropped, release_row};
ghost use Rattle.model.specs.Tally.{tally};

use crate::failure::Failure;
use crate::machine::ended::Ended;
use crate::machine::row::Row;
use firm::Outcome;

impl Row {
    // The releases of an instant: a frame that is released then waits.
    pub(crate) fn release(&mut self, instant: u64)
        requires { instant ≤ 2 ^ 41 }
        ensures { row_of self.new ≡ release_row instant (row_of self.old) }
    {
        if self.is_released(instant) {
            self.waits = Some(instant / u64::from(self.stream.period()) + 1);
        }
    }

    // The drops of an instant: a frame that can no longer be sent in time is dropped, and has missed.
    pub(crate) fn drop(&mut self, slot: u8, instant: u64) -> Option<Ended>
        ensures row { row_of self.new ≡ drop_row instant (row_of self.old) }
        ensures told { told_of result ≡ tally (dropped instant slot self.old.waits (row_of self.old)) }
    {
        // An `if` and not `filter` before the `?`: what `filter` says of its closure is taken apart in more lines than these.
        let frame = self.waits?;
        if !self.is_hopeless(frame, instant) {
            return None;
        }
        self.waits = None;
        let note = Failure {
            slot,
            frame,
            instant,
        };
        Some(self.enter(Outcome::Missed, note))
    }
}
