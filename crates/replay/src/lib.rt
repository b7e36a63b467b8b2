// Any list of calls, worked on a bench over any ranking rule.
#![tactic(auto)]

pub mod call;
mod calling;
pub mod either;
pub mod replayed;
mod replaying;

pub use call::Call;
pub use either::Bench;
pub use replayed::Replayed;
pub use replaying::{after, replay};
