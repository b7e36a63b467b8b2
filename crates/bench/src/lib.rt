// A tester's bench: a rack of eight slots over a ranking rule, laid or running.
#![tactic(auto)]

pub mod answer;
pub mod figures;
pub mod laid;
mod measuring;
pub mod running;
mod search;
#[cfg(test)]
mod tests;

pub use answer::Forecast;
pub use figures::Figures;
pub use laid::Laid;
pub use running::Running;
