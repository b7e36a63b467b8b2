ghost use Rattle.std.specs.Prelude.{◌≡◌};
ghost use Rattle.bench.specs.Stands.{table_in};
ghost use Rattle.model.specs.Bench.{fitted, primed, pulled};
ghost use Rattle.model.specs.Tables.{empty};
ghost use Rattle.refusal.specs.Tests.{done, kept};
ghost use Rattle.model.specs.Layout.{judged};

use crate::laid::Laid;
use bus::Rule;
use refusal::{Fault, Refusal};
use streams::{Numbers, Stream, Table};

impl<R: Rule> Laid<R> {
    // The bench over a rule, with every slot empty.
    pub fn new(rule: R) -> Laid<R>
        ensures table { table_in result ≡ empty }
        ensures rule { result.rule ≡ rule }
    {
        Laid {
            rule,
            table: Table::empty(),
        }
    }

    // Puts a stream by its numbers into a slot, or gives the first refusal: the slot above 7, those of the stream's numbers,
    // the slot taken, the hyper-period above its limit, the number of histories above its limit.
    pub fn fit(&mut self, slot: u64, numbers: Numbers) -> Result<(), Refusal>
        ensures answer { result ≡ done (fitted (table_in self.old) slot numbers.period numbers.deadline numbers.service numbers.m numbers.k numbers.history) }
        ensures table { table_in self.new ≡ kept (table_in self.old) (fitted (table_in self.old) slot numbers.period numbers.deadline numbers.service numbers.m numbers.k numbers.history) }
        ensures rule { self.new.rule ≡ self.old.rule }
    {
        if slot > 7 {
            return Err(Refusal::SlotRange);
        }
        self.table = self.table.with(slot, Stream::new(numbers)?)?;
        Ok(())
    }

    // Empties a slot, or gives the first refusal: the slot above 7, the slot empty.
    pub fn pull(&mut self, slot: u64) -> Result<(), Refusal>
        ensures answer { result ≡ done (pulled (table_in self.old) slot) }
        ensures table { table_in self.new ≡ kept (table_in self.old) (pulled (table_in self.old) slot) }
        ensures rule { self.new.rule ≡ self.old.rule }
    {
        self.table = self.table.without(slot)?;
        Ok(())
    }

    // Writes the history of the stream in a slot, or gives the first refusal: the slot above 7, the slot empty,
    // a one in bit k or above.
    pub fn prime(&mut self, slot: u64, history: u64) -> Result<(), Refusal>
        ensures answer { result ≡ done (primed (table_in self.old) slot history) }
        ensures table { table_in self.new ≡ kept (table_in self.old) (primed (table_in self.old) slot history) }
        ensures rule { self.new.rule ≡ self.old.rule }
    {
        self.table.prime(slot, history)
    }

    // Puts the table that a file spells in the place of the whole table, or gives the file's first fault.
    pub fn load(&mut self, file: &[u8]) -> Result<(), Fault>
        ensures answer { result ≡ done (judged file.now) }
        ensures table { table_in self.new ≡ kept (table_in self.old) (judged file.now) }
        ensures rule { self.new.rule ≡ self.old.rule }
    {
        self.table = tablefile::read(file)?;
        Ok(())
    }
}
