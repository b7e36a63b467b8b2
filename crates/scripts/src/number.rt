// Numbers as scripts write them.
use std::num::IntErrorKind;

// A number, decimal or hexadecimal behind 0x. One that passes 64 bits passes every limit of the bench too,
// so the largest of 64 bits stands for it.
pub(crate) fn number(word: &str) -> Option<u64> {
    let read = match word.strip_prefix("0x") {
        Some(digits) => u64::from_str_radix(digits, 16),
        None => word.parse(),
    };
    match read {
        Err(error) if *error.kind() == IntErrorKind::PosOverflow => Some(u64::MAX),
        read => read.ok(),
    }
}
