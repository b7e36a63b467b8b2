ghost use Rattle.std.specs.Prelude.{◌≡◌, ◌^◌, ◌≤◌};
ghost use Rattle.bus.specs.Frames.{number};

use firm::History;
use streams::Stream;

mod ending;
mod making;
mod stepping;
mod timing;
mod waiting;

// An occupied slot: its stream, its history as it stands, and the number of its waiting frame, if any.
#[derive(Clone, Copy)]
pub(crate) struct Row {
    stream: Stream,
    history: History,
    waits: Option<u64>,
    ghost required: { history.m ≡ stream.history.m },
    ghost window: { history.k ≡ stream.history.k },
    ghost countable: { number waits ≤ 2 ^ 42 },
}
