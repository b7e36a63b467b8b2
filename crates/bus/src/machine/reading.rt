ghost use Rattle.std.specs.Prelude.{◌≡◌, not, is_some, None, slice_index_or};
ghost use Rattle.bus.specs.Machines.{state_of};
ghost use Rattle.firm.specs.Stands.{firm_of};
ghost use Rattle.model.specs.Machine.{history_of};
ghost use Rattle.std.specs.Option.{option_map};

use crate::machine::Machine;
use firm::History;

impl Machine {
    // The instant.
    pub fn now(&self) -> u64
        ensures { result ≡ (state_of self.now).now }
    {
        self.state.now
    }

    // Whether nothing is in transit.
    pub fn is_idle(&self) -> bool
        ensures { result ≡ not (is_some (state_of self.now).transit) }
    {
        self.state.transit.is_none()
    }

    // The history of the stream in a slot as it stands, or `None` if the slot is empty or above 7.
    pub fn history(&self, slot: u64) -> Option<History>
        ensures { option_map firm_of result ≡ option_map history_of (slice_index_or (state_of self.now).rows slot None) }
    {
        self.state
            .rows
            .get(slot as usize)
            .copied()
            .flatten()
            .map(|row| row.history())
    }
}
