ghost use Rattle.std.specs.Prelude.{◌≡◌};
ghost use Rattle.std.specs.Str.{bytes_eq};
ghost use Rattle.bus.specs.Orders.{orders};
ghost use Rattle.bus.specs.Rankings.{meaning, named, word};

use crate::named::{Deh, Del, Dml, Drel, El, Ml};
use crate::ready::ReadyFrame;
use crate::rule::Rule;

// The ranking rules that a word names; its letters name a rule's keys from the first to the last.
#[derive(Clone, Copy, Debug, PartialEq, Eq)]
pub enum Ranking {
    Del,
    Deh,
    Dml,
    Drel,
    El,
    Ml,
}

impl Ranking {
    // All of them, in the order in which a word is looked up.
    pub const ALL: [Ranking; 6] = [
        Ranking::Del,
        Ranking::Deh,
        Ranking::Dml,
        Ranking::Drel,
        Ranking::El,
        Ranking::Ml,
    ];

    // Its word.
    pub fn word(self) -> &'static str
        ensures { result.now ≡ word self }
    {
        match self {
            Ranking::Del => "DEL",
            Ranking::Deh => "DEH",
            Ranking::Dml => "DML",
            Ranking::Drel => "DREL",
            Ranking::El => "EL",
            Ranking::Ml => "ML",
        }
    }

    // Whether it has these bytes for its word.
    fn has_word(self, bytes: &[u8]) -> bool
        ensures { result ≡ bytes_eq bytes.now (word self) }
    {
        bytes == self.word().as_bytes()
    }

    // The ranking rule that has these bytes for its word, if any.
    pub fn named(bytes: &[u8]) -> Option<Ranking>
        ensures { result ≡ named bytes.now }
    {
        Ranking::ALL
            .iter()
            .copied()
            .find(|rule| rule.has_word(bytes))
    }
}

// A rule that is told when it runs which of them it is. Where the rule is known, its own type asks nothing.
// An enum with a match, since a bench whose rule is chosen when it runs has one type, whatever the rule.
impl Rule for Ranking {
    ghost before = { meaning };

    ghost total = { λ r. (orders r).total };

    ghost chain = { λ r. (orders r).chain };

    fn goes_before(&self, a: &ReadyFrame, b: &ReadyFrame) -> bool {
        match self {
            Ranking::Del => Del::default().goes_before(a, b),
            Ranking::Deh => Deh::default().goes_before(a, b),
            Ranking::Dml => Dml::default().goes_before(a, b),
            Ranking::Drel => Drel::default().goes_before(a, b),
            Ranking::El => El::default().goes_before(a, b),
            Ranking::Ml => Ml::default().goes_before(a, b),
        }
    }
}
