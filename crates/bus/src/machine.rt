ghost use Rattle.bus.specs.States.{standing};
ghost use Rattle.laws.specs.Sound.{Sound};

use crate::machine::state::State;

mod busy;
mod candidate;
mod ended;
mod making;
mod reading;
mod row;
mod running;
mod state;
pub mod tally;
mod transit;

// The bus machine: the streams of a table with their histories, the frames that wait and the one in transit, at an instant.
// Its state is sound, so a waiting frame was released and can still be sent in time.
#[derive(Clone, Copy)]
pub struct Machine {
    state: State,
    ghost sound: { ∥ Sound (standing state) ∥₁ },
}
