// Many inputs in one run: each line that is read is one whole input in hexadecimal, and its answer is written.
#![tactic(auto)]

mod answering;
mod decoding;
#[cfg(test)]
mod tests;

pub use answering::answer_all;
pub use decoding::decoded;
