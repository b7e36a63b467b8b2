// One record after the other, each through the three layers: the file's layout, the stream, the table.
ghost use Rattle.std.specs.Prelude.{◌≡◌, Ok, Err, MatchResult, slice_index};
ghost use Rattle.refusal.specs.Tests.{on_ok};
ghost use Rattle.streams.specs.Stands.{stream_of};
ghost use Rattle.model.specs.Layout.{spells, next, slots};
ghost use Rattle.tablefile.specs.Stands.{progress_of};

use crate::fields::Map;
use crate::record::cutting::at_place;
use crate::record::{Reader, Record};
use refusal::{Fault, Layer, Refusal};
use streams::Stream;

impl Record<'_> {
    // The stream that it spells, where the record before it has the period `before`.
    fn stream(&self, before: u64) -> Result<Stream, Refusal>
        ensures { on_ok stream_of result ≡ spells before self.now.bytes.now }
    {
        Stream::new(self.numbers(before))
    }
}

impl Reader<'_> {
    // Lays the stream of the next record into a slot; the reader then stands behind the record.
    fn lay(&mut self, slot: u8) -> Result<(), Fault>
        ensures file { self.new.file.now ≡ self.old.file.now }
        ensures cases { MatchResult result (λ _. next self.old.file.now slot (progress_of self.old) ≡ Ok (progress_of self.new)) (λ f. next self.old.file.now slot (progress_of self.old) ≡ Err f) }
    {
        let record = self.record()?;
        // The first record of a file has its period, so the 0 is never read.
        let before = self.before.unwrap_or(0);
        let stream = at_place(record.stream(before), self.at, Layer::Stream)?;
        self.table = at_place(
            self.table.with(u64::from(slot), stream),
            self.at,
            Layer::Table,
        )?;
        self.before = Some(u64::from(stream.period()));
        self.at += record.bytes.len();
        Ok(())
    }

    // Lays the records of all slots whose bit stands in the slot map, lowest slot first.
    // A loop and not a chain: each record moves the reader.
    pub(crate) fn lay_all(&mut self, map: Map) -> Result<(), Fault>
        requires map { map.0 ≡ slice_index self.old.file.now 0 }
        requires fresh { slots self.old.file.now 0 ≡ Ok (progress_of self.old) }
        ensures cases { MatchResult result (λ _. slots self.old.file.now 8 ≡ Ok (progress_of self.new)) (λ f. slots self.old.file.now 8 ≡ Err f) }
    {
        for slot in 0..8 {
            if map.has(slot) {
                self.lay(slot)?;
            }
        }
        Ok(())
    }
}
