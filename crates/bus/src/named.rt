// The rules with a name: a rule's letters name its keys from the first to the last, and then which slot breaks a tie.
ghost use Rattle.std.specs.Prelude.{◌≡◌, Bool};
ghost use Rattle.bus.specs.Rules.{del, deh, dml, drel, el, ml};
ghost use Rattle.model.specs.Ready.{Ready};

use crate::bottoms::{Higher, Lower};
use crate::keys::{Distance, Period, Restoring, TimeLeft};
use crate::layers::Layer;
use crate::rule::Rule;

// A rule with a name, made of nothing. `meaning` is what it means.
pub trait Named: Rule + Sized {
    ghost meaning: { Ready → Ready → Bool };

    // The rule.
    fn new() -> Self
        ensures { Self.Rule.before result ≡ meaning };
}

// The distance, then the time left, then the lower slot.
pub type Del = Layer<Distance, Layer<TimeLeft, Lower>>;

impl Named for Del {
    ghost meaning = { del };

    fn new() -> Del {
        Del::default()
    }
}

// The distance, then the time left, then the higher slot.
pub type Deh = Layer<Distance, Layer<TimeLeft, Higher>>;

impl Named for Deh {
    ghost meaning = { deh };

    fn new() -> Deh {
        Deh::default()
    }
}

// The distance, then the period, then the lower slot.
pub type Dml = Layer<Distance, Layer<Period, Lower>>;

impl Named for Dml {
    ghost meaning = { dml };

    fn new() -> Dml {
        Dml::default()
    }
}

// The distance, then the restoring distance, then the time left, then the lower slot.
pub type Drel = Layer<Distance, Layer<Restoring, Layer<TimeLeft, Lower>>>;

impl Named for Drel {
    ghost meaning = { drel };

    fn new() -> Drel {
        Drel::default()
    }
}

// The time left, then the lower slot.
pub type El = Layer<TimeLeft, Lower>;

impl Named for El {
    ghost meaning = { el };

    fn new() -> El {
        El::default()
    }
}

// The period, then the lower slot.
pub type Ml = Layer<Period, Lower>;

impl Named for Ml {
    ghost meaning = { ml };

    fn new() -> Ml {
        Ml::default()
    }
}
