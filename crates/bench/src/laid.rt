use bus::Rule;
use streams::Table;

mod fitting;

// A bench at rest: the rule that ranks its frames, and the streams in its slots.
#[derive(Drop)]
pub struct Laid<R: Rule> {
    pub(crate) rule: R,
    pub(crate) table: Table,
}
