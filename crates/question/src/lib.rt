// What an input asks: the word before its first byte 10 names a ranking rule, and a table file stands behind it.
#![tactic(auto)]

mod asking;
mod lines;
mod question;
#[cfg(test)]
mod tests;

pub use asking::ask;
pub use lines::refused_line;
pub use question::Question;
