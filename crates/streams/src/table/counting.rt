ghost use Rattle.std.specs.Prelude.{◌≡◌, ◌*◌, ◌≤◌, nat_le};
ghost use Rattle.std.specs.Option.{option_map_or};
ghost use Rattle.model.specs.Tables.{histories, passing_count};
ghost use Rattle.streams.specs.Stands.{stream_of};
ghost use Rattle.streams.specs.Tables.{table_of};

use crate::stream::Stream;
use crate::table::Table;

// The number of histories of a table may not pass this.
const HISTORY_LIMIT: u64 = 1048576;

// How many of a stream's histories pass.
fn count_passing(stream: &Stream) -> u32
    ensures { result ≡ passing_count (stream_of stream.now) }
{
    stream.history().passing_count()
}

// How many histories of the stream in a slot pass; an empty slot counts 1. (Not over `flatten`, which takes several times as long.)
fn count_in(slot: &Option<Stream>) -> u32
    ensures { result ≡ option_map_or (λ s. passing_count (stream_of s)) slot.now 1 }
{
    slot.as_ref().map_or(1, count_passing)
}

impl Table {
    // N: the product of the streams' counts of passing histories, 1 for the empty table.
    pub fn history_count(&self) -> u32
        ensures value { result ≡ histories (table_of self.now) }
        ensures some { 1 ≤ result }
    {
        self.slots.iter().map(count_in).product()
    }

    // Whether the number of histories stays within its limit with one more stream.
    pub(super) fn histories_fit(&self, stream: &Stream) -> bool
        ensures { result ≡ nat_le (histories (table_of self.now) * passing_count (stream_of stream.now)) 1048576 }
    {
        u64::from(self.history_count()) * u64::from(count_passing(stream)) <= HISTORY_LIMIT
    }
}
