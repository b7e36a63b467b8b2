// A whole file: the slot map, then one record for each of its bits that stands.
ghost use Rattle.std.specs.Prelude.{◌≡◌};
ghost use Rattle.refusal.specs.Tests.{on_ok};
ghost use Rattle.streams.specs.Tables.{table_of};
ghost use Rattle.model.specs.Layout.{judged};
ghost use Rattle.model.specs.Spelling.{Exactly};

use crate::fields::Map;
use crate::record::Reader;
use crate::record::cutting::too_short;
use refusal::{Fault, Layer, Refusal};
use streams::Table;

// The table that a file spells, or its first fault in the order of the tests. A file is accepted exactly when it is its
// slot map, one whole record for each bit that stands and nothing else, and the table is within its limits.
pub fn read(file: &[u8]) -> Result<Table, Fault>
    ensures value { on_ok table_of result ≡ judged file.now }
    ensures exactly { Exactly file.now (on_ok table_of result) }
{
    let [byte, ..] = file else {
        return Err(too_short(file));
    };
    let mut reader = Reader {
        file,
        at: 1,
        before: None,
        table: Table::empty(),
    };
    reader.lay_all(Map(*byte))?;
    if reader.at < file.len() {
        return Err(Refusal::BytesFollow.at(reader.at, Layer::File));
    }
    Ok(reader.table)
}
