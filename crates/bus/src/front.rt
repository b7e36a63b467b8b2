ghost use Rattle.std.specs.Prelude.{◌≡◌, map};
ghost use Rattle.bus.specs.First.{First, first_place};
ghost use Rattle.bus.specs.Stands.{ready_of};
ghost use Rattle.std.proofs.Common.{rules};

use crate::first::{Precedes, first_at};
use crate::ready::ReadyFrame;
use crate::rule::Rule;

// A rule orders the ready frames of different slots.
impl<R: Rule> Precedes<ReadyFrame> for R {
    ghost place = { λ f. (ready_of f).slot };

    ghost ahead = { λ s a b. R.Rule.before s (ready_of a) (ready_of b) };

    ghost total = { λ s a b. R.Rule.total s (ready_of a) (ready_of b) (Prim.search rules) (Prim.search rules) };

    ghost chain = { λ s a b c. R.Rule.chain s (ready_of a) (ready_of b) (ready_of c) (Prim.search rules) (Prim.search rules) (Prim.search rules) };

    fn precedes(&self, a: &ReadyFrame, b: &ReadyFrame) -> bool {
        self.goes_before(a, b)
    }
}

// The index of the front: the frame that goes before all others under the rule, if no two have one slot.
pub fn front_at<R: Rule>(rule: &R, frames: &[ReadyFrame]) -> Option<usize>
    ensures value { result ≡ first_place (R.before rule.now) (map ready_of frames.now) }
    ensures first { First (λ f. f.slot) (R.before rule.now) (map ready_of frames.now) result }
{
    first_at(rule, frames)
}
