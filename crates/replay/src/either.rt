use bench::{Laid, Running};
use bus::Rule;

// A bench, laid or running. An enum of its own and not an `Either`: each of the two is named where it is made and matched.
#[derive(Drop)]
pub enum Bench<R: Rule> {
    Laid(Laid<R>),
    Running(Running<R>),
}
