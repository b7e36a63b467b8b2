ghost use Rattle.std.specs.Prelude.{◌≡◌, None, slice_index_or};
ghost use Rattle.model.specs.Tables.{empty, placed};
ghost use Rattle.refusal.specs.Tests.{on_ok};
ghost use Rattle.streams.specs.Stands.{slot_of, stream_of};
ghost use Rattle.streams.specs.Tables.{table_of};

use crate::stream::Stream;
use crate::table::Table;
use refusal::Refusal;

impl Table {
    // The table with no stream.
    pub fn empty() -> Table
        ensures { table_of result ≡ empty }
    {
        Table { slots: [None; 8] }
    }

    // The stream in a slot, or `None` if it is empty or above 7.
    pub fn stream(&self, slot: u64) -> Option<Stream>
        ensures { slot_of result ≡ slice_index_or (table_of self.now) slot None }
    {
        self.slots.get(slot as usize).copied().flatten()
    }

    // The table with one more stream, or the first refusal: the slot above 7, the slot taken, the hyper-period above its limit,
    // the number of histories above its limit.
    pub fn with(&self, slot: u64, stream: Stream) -> Result<Table, Refusal>
        ensures { on_ok table_of result ≡ placed (table_of self.now) slot (stream_of stream) }
    {
        if slot > 7 {
            return Err(Refusal::SlotRange);
        }
        if self.stream(slot).is_some() {
            return Err(Refusal::SlotTaken);
        }
        if !self.hyper_period_fits(&stream) {
            return Err(Refusal::HyperPeriodLimit);
        }
        if !self.histories_fit(&stream) {
            return Err(Refusal::HistoryLimit);
        }
        let mut slots = self.slots;
        slots[slot as usize] = Some(stream);
        Ok(Table { slots })
    }
}
