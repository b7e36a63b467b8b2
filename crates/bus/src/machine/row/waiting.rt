ghost use Rattle.std.specs.Prelude.{◌≡◌, ◌≤◌, is_some, None};
ghost use Rattle.bus.specs.Rows.{row_of};
ghost use Rattle.bus.specs.Waiting.{Sendable, candidate_of};
ghost use Rattle.firm.specs.Stands.{firm_of};
ghost use Rattle.model.specs.Machine.{candidate, history_of, release_row, with_waiting};
ghost use Rattle.std.specs.Option.{option_map};

use crate::machine::candidate::Candidate;
use crate::machine::row::Row;
use crate::ready::ReadyFrame;
use firm::History;

impl Row {
    // The history as it stands.
    pub(crate) fn history(&self) -> History
        ensures { firm_of result ≡ history_of (row_of self.now) }
    {
        self.history
    }

    // Whether a frame waits after the releases of an instant.
    pub(crate) fn waits_from(&self, instant: u64) -> bool
        ensures { result ≡ is_some (release_row instant (row_of self.now)).waits }
    {
        self.waits.is_some() || self.is_released(instant)
    }

    // The waiting frame, if any, with what a rule is shown of it at an instant.
    pub(crate) fn candidate(&self, slot: u8, instant: u64) -> Option<Candidate>
        requires { (slot ≤ 7) × (Sendable instant (row_of self.now)) }
        ensures { option_map candidate_of result ≡ option_map (candidate instant slot (row_of self.now)) self.now.waits }
    {
        let frame = self.waits?;
        let left = self.due(frame) - instant;
        let shown = ReadyFrame::waiting(slot, &self.stream, self.history, left as u16);
        Some(Candidate { frame, shown })
    }

    // The row once its frame is sent: it no longer waits.
    pub(crate) fn sent(mut self) -> Row
        ensures { row_of result ≡ with_waiting None (row_of self) }
    {
        self.waits = None;
        self
    }
}
