ghost use Rattle.std.specs.Prelude.{Some};
ghost use Rattle.bench.specs.Texts.{figures_text};

use std::fmt;

// The figures of a forecast that holds, from the one boundary to the other: how many units lie between them, how many of these are busy,
// how many outcomes are met and missed, and the load, which is the busy units in a thousand, rounded down.
#[derive(Clone, Copy)]
pub struct Figures {
    pub length: u64,
    pub busy: u64,
    pub met: u64,
    pub missed: u64,
    pub load: u64,
}

impl fmt::Display for Figures {
    ghost output = { λ figures. Some (figures_text figures) };

    fn fmt<W: fmt::Write>(&self, f: &mut fmt::Formatter<W>) -> fmt::Result {
        let Figures {
            length,
            busy,
            met,
            missed,
            load,
        } = self;
        write!(
            f,
            "length {length} busy {busy} met {met} missed {missed} load {load}"
        )
    }
}
