ghost use Rattle.std.specs.Prelude.{◌≤◌};

use firm::History;

mod making;
mod priming;

// A stream of frames: one each period, on the bus for its service time, due by the relative deadline,
// with the history of how its latest frames ended.
#[derive(Clone, Copy, Debug, PartialEq, Eq)]
pub struct Stream {
    period: u16,
    deadline: u16,
    service: u16,
    history: History,
    ghost some: { 1 ≤ service },
    ghost within: { service ≤ deadline },
    ghost constrained: { deadline ≤ period },
    ghost short: { period ≤ 4096 },
}
