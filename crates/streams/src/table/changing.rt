ghost use Rattle.std.specs.Prelude.{◌≡◌};
ghost use Rattle.model.specs.Bench.{primed, pulled, taken};
ghost use Rattle.refusal.specs.Tests.{on_ok};
ghost use Rattle.refusal.specs.Tests.{done, kept};
ghost use Rattle.streams.specs.Stands.{stream_of};
ghost use Rattle.streams.specs.Tables.{table_of};

use crate::stream::Stream;
use crate::table::Table;
use refusal::Refusal;

impl Table {
    // The stream in a slot, or the first refusal: the slot above 7, the slot empty.
    fn taken(&self, slot: u64) -> Result<Stream, Refusal>
        ensures { on_ok stream_of result ≡ taken (table_of self.now) slot }
    {
        let stream = self.slots.get(slot as usize).ok_or(Refusal::SlotRange)?;
        stream.ok_or(Refusal::SlotEmpty)
    }

    // The table with a slot emptied, or the first refusal: the slot above 7, the slot empty.
    pub fn without(&self, slot: u64) -> Result<Table, Refusal>
        ensures { on_ok table_of result ≡ pulled (table_of self.now) slot }
    {
        self.taken(slot)?;
        let mut slots = self.slots;
        slots[slot as usize] = None;
        Ok(Table { slots })
    }

    // Writes the history of the stream in a slot, or gives the first refusal: the slot above 7, the slot empty,
    // a one in bit k or above.
    pub fn prime(&mut self, slot: u64, history: u64) -> Result<(), Refusal>
        ensures answer { result ≡ done (primed (table_of self.old) slot history) }
        ensures table { table_of self.new ≡ kept (table_of self.old) (primed (table_of self.old) slot history) }
    {
        let stream = self.taken(slot)?;
        self.slots[slot as usize] = Some(stream.with_history(history)?);
        Ok(())
    }
}
