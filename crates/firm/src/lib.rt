// The (m,k)-firm history of a stream: at least m of any k consecutive frames on time.
#![tactic(auto)]

pub mod history;
pub mod laws;
pub mod outcome;
#[cfg(test)]
mod tests;

pub use history::History;
pub use outcome::Outcome;
