// Periodic frame streams and the table that holds up to eight of them.
#![tactic(auto)]

pub mod numbers;
pub mod stream;
pub mod table;
#[cfg(test)]
mod tests;

pub use numbers::Numbers;
pub use stream::Stream;
pub use table::Table;
