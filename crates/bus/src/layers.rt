ghost use Rattle.std.specs.Prelude.{◌≡◌, ℕ};
ghost use Rattle.bus.specs.Rules.{layered};
ghost use Rattle.bus.specs.Stands.{ready_of};
ghost use Rattle.model.specs.Ready.{Ready};
ghost use Rattle.std.proofs.Common.{rules};

use crate::ready::ReadyFrame;
use crate::rule::Rule;

// A number by which waiting frames are ranked, the smaller first. `key` is its meaning, over what a rule is shown.
pub trait Key {
    ghost key: { Self → Ready → ℕ };

    // The number of a frame.
    fn of(&self, frame: &ReadyFrame) -> u64
        ensures { result ≡ key self.now (ready_of frame.now) };
}

// The smaller key goes first; equal keys are left to the rule below.
#[derive(Clone, Copy, Default, Drop)]
pub struct Layer<K: Key, R: Rule> {
    by: K,
    below: R,
}

impl<K: Key, R: Rule> Layer<K, R> {
    // The layer of a key over a rule.
    pub fn over(by: K, below: R) -> Layer<K, R>
        ensures { (result.by ≡ by) × (result.below ≡ below) }
    {
        Layer { by, below }
    }
}

impl<K: Key, R: Rule> Rule for Layer<K, R> {
    ghost before = { λ s. layered (K.Key.key s.by) (R.Rule.before s.below) };

    ghost total = { Prim.search rules };

    ghost chain = { Prim.search rules };

    fn goes_before(&self, a: &ReadyFrame, b: &ReadyFrame) -> bool {
        let key_a = self.by.of(a);
        let key_b = self.by.of(b);
        key_a < key_b || key_a == key_b && self.below.goes_before(a, b)
    }
}
