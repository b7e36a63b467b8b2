ghost use Rattle.std.specs.Prelude.{◌≡◌, ◌^◌, ◌≤◌, length};

use crate::machine::row::Row;
use crate::machine::transit::Transit;

mod every_slot;
mod in_transit;
mod making;
mod passing;
mod starting;

// The bus at an instant: eight slots, each empty or with a row, and the frame in transit, if any.
#[derive(Clone, Copy)]
pub(crate) struct State {
    pub(super) now: u64,
    pub(super) rows: [Option<Row>; 8],
    pub(super) transit: Option<Transit>,
    ghost eight: { length rows ≡ 8 },
    ghost early: { now ≤ 2 ^ 41 },
}
