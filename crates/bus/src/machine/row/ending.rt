ghost use Rattle.std.specs.Prelude.{◌≡◌, [], ◌∷◌, Some};
ghost use Rattle.bus.specs.Endings.{is_met, told_of};
ghost use Rattle.bus.specs.Rows.{row_of};
ghost use Rattle.model.specs.Machine as model;
ghost use Rattle.model.specs.Tally.{tally};

use crate::failure::Failure;
use crate::machine::ended::Ended;
use crate::machine::row::Row;
use firm::Outcome;

impl Row {
    // A frame of the stream ends: its outcome enters the history, and is the failure that the note tells of if the history then does not pass.
    pub(crate) fn enter(&mut self, outcome: Outcome, note: Failure) -> Ended
        ensures row { row_of self.new ≡ model.with_outcome (is_met outcome) (row_of self.old) }
        ensures told { told_of (Some result) ≡ tally (model.outcome note.instant note.slot note.frame (is_met outcome) (row_of self.old) ∷ []) }
    {
        self.history = self.history.enter(outcome);
        Ended {
            outcome,
            failure: (!self.history.passes()).then_some(note),
        }
    }
}
