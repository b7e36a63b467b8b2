// The table file: its layout, read without copying.
#![tactic(auto)]

mod fields;
mod reading;
mod record;

pub use reading::read;
