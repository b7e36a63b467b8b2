ghost use Rattle.std.specs.Prelude.{◌≡◌, ◌≤◌};
ghost use Rattle.bus.specs.Machines.{state_of};
ghost use Rattle.model.specs.Bench.{last_instant};
ghost use Rattle.model.specs.Forecast.{table_of as table_at};
ghost use Rattle.streams.specs.Tables.{table_of};

use bus::{Machine, Rule};
use streams::Table;

mod figuring;
mod foretelling;
mod starting;
mod stopping;
mod working;

// A bench that runs: the rule that ranks its frames, the table that it was started with, and the bus as it stands.
// The bus has the streams of the table, and has not passed the last instant.
#[derive(Drop)]
pub struct Running<R: Rule> {
    pub(crate) rule: R,
    pub(crate) table: Table,
    pub(crate) machine: Machine,
    ghost early: { (state_of machine).now ≤ last_instant },
    ghost same: { ∥ table_at (state_of machine) ≡ table_of table ∥₁ },
}
