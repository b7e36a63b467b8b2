// The bus: what a ranking rule is, which of the frames that wait goes first, and the machine that sends them.
#![tactic(auto)]

pub mod bottoms;
pub mod failure;
pub mod first;
pub mod front;
pub mod keys;
pub mod layers;
pub mod machine;
#[cfg(test)]
mod machine_tests;
pub mod named;
pub mod ranking;
pub mod ready;
pub mod rule;
pub mod showing;
#[cfg(test)]
mod tests;

pub use bottoms::{Higher, Lower, Reverse};
pub use failure::{BySlot, Failure, first_failure};
pub use first::{Precedes, first_at};
pub use front::front_at;
pub use keys::{Distance, Period, Restoring, SlotRank, TimeLeft};
pub use layers::{Key, Layer};
pub use machine::Machine;
pub use machine::tally::Tally;
pub use named::{Deh, Del, Dml, Drel, El, Ml, Named};
pub use ranking::Ranking;
pub use ready::ReadyFrame;
pub use rule::Rule;
