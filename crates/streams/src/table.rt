ghost use Rattle.std.specs.Prelude.{◌≡◌, ◌≤◌, length};
ghost use Rattle.model.specs.Tables.{histories, hyper_period};
ghost use Rattle.streams.specs.Stands.{slots_of};

use crate::stream::Stream;

mod changing;
mod counting;
mod repeating;
mod slots;

// Eight slots, each empty or with a stream: the least common multiple of the periods stays at most 36,864,
// and the product of the counts of passing histories at most 1,048,576.
#[derive(Clone, Copy, Debug)]
pub struct Table {
    slots: [Option<Stream>; 8],
    ghost eight: { length slots ≡ 8 },
    ghost short: { hyper_period (slots_of slots) ≤ 36864 },
    ghost few: { histories (slots_of slots) ≤ 1048576 },
}
