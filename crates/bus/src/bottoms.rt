ghost use Rattle.bus.specs.Rules.{lower_slot};
ghost use Rattle.std.proofs.Common.{rules};

use crate::ready::ReadyFrame;
use crate::rule::Rule;

// The lower slot first.
#[derive(Clone, Copy, Default)]
pub struct Lower;

impl Rule for Lower {
    ghost before = { λ _. lower_slot };

    ghost total = { Prim.search rules };

    ghost chain = { Prim.search rules };

    fn goes_before(&self, a: &ReadyFrame, b: &ReadyFrame) -> bool {
        a.slot() < b.slot()
    }
}

// A rule turned around: the frame first that went last.
#[derive(Clone, Copy, Default, Drop)]
pub struct Reverse<R: Rule>(pub R);

impl<R: Rule> Rule for Reverse<R> {
    ghost before = { λ s a b. R.Rule.before s.0 b a };

    ghost total = { Prim.search rules };

    ghost chain = { Prim.search rules };

    fn goes_before(&self, a: &ReadyFrame, b: &ReadyFrame) -> bool {
        self.0.goes_before(b, a)
    }
}

// The higher slot first.
pub type Higher = Reverse<Lower>;
