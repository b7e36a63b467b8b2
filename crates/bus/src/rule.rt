ghost use Rattle.std.specs.Prelude.{◌≡◌, Bool};
ghost use Rattle.bus.specs.Stands.{ready_of};
ghost use Rattle.model.specs.Ready.{Ready, Total, Chain};

use crate::ready::ReadyFrame;

// A ranking rule: which of two waiting frames goes first. `before` is its meaning, over what a rule is shown.
pub trait Rule {
    ghost before: { Self → Ready → Ready → Bool };

    // Whether a goes before b.
    fn goes_before(&self, a: &ReadyFrame, b: &ReadyFrame) -> bool
        ensures { result ≡ before self.now (ready_of a.now) (ready_of b.now) };

    // Of two frames in different slots exactly one goes before the other.
    ghost total: { (s : Self) → Total (before s) };

    // Over three different slots, going before is passed along.
    ghost chain: { (s : Self) → Chain (before s) };
}
