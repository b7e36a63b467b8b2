ghost use Rattle.std.specs.Prelude.{◌≤◌};

use firm::History;

mod distances;
mod making;
mod reading;

// What a rule is shown of a frame that waits: its stream's slot, numbers and history, and the time left until it is due.
// The numbers and not the `Stream`, which has a history of its own: that of the start.
#[derive(Clone, Copy)]
pub struct ReadyFrame {
    slot: u8,
    period: u16,
    deadline: u16,
    service: u16,
    history: History,
    left: u16,
    ghost low: { slot ≤ 7 },
    ghost some: { 1 ≤ service },
    ghost fits: { service ≤ deadline },
    ghost constrained: { deadline ≤ period },
    ghost short: { period ≤ 4096 },
    ghost enough: { service ≤ left },
    ghost most: { left ≤ deadline },
}
