// Ranking rules of another's, on the public face of `bus` alone: a layer and a bottom.
#![tactic(auto)]

ghost use Rattle.std.specs.Prelude.{map, ◌≡◌};
ghost use Rattle.bus.specs.First.{First, first_place};
ghost use Rattle.bus.specs.Stands.{ready_of};
ghost use Rattle.mutuality.specs.Margins.{margin, by_margin, from_last};
ghost use Rattle.std.proofs.Common.{rules};

use bus::{ReadyFrame, Rule, front_at};

// The stream that can lose the fewest more frames first, after those that it loses while the longest other frame is sent;
// equal margins are left to the rule below.
// It is no `Layer` over a key, for it shows that a layer of another's needs only the public face of `bus` too.
#[derive(Clone, Copy, Drop)]
pub struct Mutuality<R: Rule> {
    longest: u16,
    below: R,
}

impl<R: Rule> Mutuality<R> {
    // The layer over a rule, for a bus whose longest frame takes so long.
    pub fn over(longest: u16, below: R) -> Mutuality<R>
        ensures { (result.longest ≡ longest) × (result.below ≡ below) }
    {
        Mutuality { longest, below }
    }

    // The distance less the frames that the stream loses meanwhile, and 0 if it has none left to lose.
    fn margin(&self, frame: &ReadyFrame) -> u16
        ensures { result ≡ margin self.now.longest (ready_of frame.now) }
    {
        u16::from(frame.distance()).saturating_sub(self.longest / frame.period())
    }
}

impl<R: Rule> Rule for Mutuality<R> {
    ghost before = { λ s. by_margin s.longest (R.Rule.before s.below) };

    ghost total = { Prim.search rules };

    ghost chain = { Prim.search rules };

    fn goes_before(&self, a: &ReadyFrame, b: &ReadyFrame) -> bool {
        let of_a = self.margin(a);
        let of_b = self.margin(b);
        of_a < of_b || of_a == of_b && self.below.goes_before(a, b)
    }
}

// The slots counted down from 7. Slots above 7 it does not tell apart, and no bus has them.
// A rule of its own beside the one of `bus` with the higher slot first: it shows that another's bottom needs only the public face of `bus` too.
#[derive(Clone, Copy)]
pub struct FromLast;

impl Rule for FromLast {
    ghost before = { λ _. from_last };

    ghost total = { Prim.search rules };

    ghost chain = { Prim.search rules };

    fn goes_before(&self, a: &ReadyFrame, b: &ReadyFrame) -> bool {
        7 - a.slot() < 7 - b.slot()
    }
}

// The index of the frame to send next, by the margins and then the rule below.
pub fn next_to_send<R: Rule>(rule: &Mutuality<R>, frames: &[ReadyFrame]) -> Option<usize>
    ensures value { result ≡ first_place (by_margin rule.now.longest (R.before rule.now.below)) (map ready_of frames.now) }
    ensures first { First (λ f. f.slot) (by_margin rule.now.longest (R.before rule.now.below)) (map ready_of frames.now) result }
{
    front_at(rule, frames)
}
