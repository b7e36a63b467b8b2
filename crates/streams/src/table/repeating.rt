ghost use Rattle.std.specs.Prelude.{◌≡◌, ◌<◌, ◌≤◌, if◌then◌else◌, Some, None, nat_le, nat_lt};
ghost use Rattle.std.specs.Option.{IfSome, option_map_or};
ghost use Rattle.model.specs.Tables.{LeastCommon, hyper_period, lcm};
ghost use Rattle.streams.specs.Tables.{table_of};

use crate::stream::Stream;
use crate::table::Table;

// The hyper-period of a table may not pass this.
const HYPER_PERIOD_LIMIT: u32 = 36864;

// The least common multiple of a and b, or `None` where it passes the limit: the first multiple of a that b divides.
fn common_multiple(a: u32, b: u32) -> Option<u32>
    requires left { 0 < a }
    requires right { 0 < b }
    requires within { a ≤ 36864 }
    ensures { result ≡ (if nat_lt 36864 (lcm a b) then None else Some (lcm a b)) }
{
    (1..HYPER_PERIOD_LIMIT / a + 1)
        .map(|times| a * times)
        .find(|multiple| multiple % b == 0)
}

// The least common multiple of a hyper-period so far and the period of the stream in a slot, which is known to stay within the limit;
// an empty slot changes nothing. (Not over `flatten`, which takes several times as long.)
fn with_slot(p: u32, slot: &Option<Stream>) -> u32
    requires positive { 0 < p }
    requires within { IfSome slot.now (λ s. lcm p s.period ≤ 36864) }
    ensures { result ≡ option_map_or (λ s. lcm p s.period) slot.now p }
{
    match slot {
        Some(stream) => common_multiple(p, u32::from(stream.period())).unwrap(),
        None => p,
    }
}

impl Table {
    // The hyper-period P: the least common multiple of the periods, 1 for the empty table.
    pub fn hyper_period(&self) -> u32
        ensures value { result ≡ hyper_period (table_of self.now) }
        ensures least { LeastCommon (table_of self.now) result }
    {
        self.slots.iter().fold(1, with_slot)
    }

    // Whether the hyper-period stays within its limit with one more stream.
    pub(super) fn hyper_period_fits(&self, stream: &Stream) -> bool
        ensures { result ≡ nat_le (lcm (hyper_period (table_of self.now)) stream.now.period) 36864 }
    {
        common_multiple(self.hyper_period(), u32::from(stream.period())).is_some()
    }
}
