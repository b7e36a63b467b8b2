ghost use Rattle.std.specs.Prelude.{◌≡◌, Some, None};
ghost use Rattle.bus.specs.Rows.{rows_of};
ghost use Rattle.bus.specs.States.{standing};
ghost use Rattle.bus.specs.Waiting.{AllSendable, ahead, candidate_of};
ghost use Rattle.model.specs.Machine.{candidates, front, start, starting};
ghost use Rattle.std.specs.Option.{option_map};

use crate::front::front_at;
use crate::machine::candidate::Candidate;
use crate::machine::row::Row;
use crate::machine::state::State;
use crate::machine::transit::Transit;
use crate::rule::Rule;

impl State {
    // Step 2: with nothing in transit and some frame waiting, the front starts.
    pub(crate) fn start<R: Rule>(&mut self, rule: &R)
        requires { AllSendable self.old.now (rows_of self.old.rows) }
        ensures { standing self.new ≡ start (R.before rule.now) (standing self.old) }
    {
        if self.transit.is_some() {
            return;
        }
        if let Some(candidate) = self.front(rule) {
            self.send(candidate);
        }
    }

    // The waiting frame that goes before the others, if any waits.
    // A loop and not a chain: the row asks that its frame can still be sent, which a closure does not know of the slot that it is given;
    // the proof of a chain did not close.
    fn front<R: Rule>(&self, rule: &R) -> Option<Candidate>
        requires { AllSendable self.now.now (rows_of self.now.rows) }
        ensures { option_map candidate_of result ≡ front (R.before rule.now) (candidates self.entry.now.now 0 (rows_of self.entry.now.rows)) }
    {
        let mut front = None;
        for (i, slot) in self.rows.iter().enumerate() {
            if let Some(row) = slot {
                front = ahead(rule, front, row.candidate(i as u8, self.now));
            }
        }
        front
    }

    // A frame no longer waits, and is in transit until its service time is over.
    fn send(&mut self, candidate: Candidate)
        ensures { standing self.new ≡ starting None (Some (candidate_of candidate)) (standing self.old) }
    {
        let shown = candidate.shown;
        let slot = usize::from(shown.slot());
        self.rows[slot] = self.rows[slot].map(Row::sent);
        self.transit = Some(Transit {
            slot: shown.slot(),
            frame: candidate.frame,
            end: self.now + u64::from(shown.service()),
            marked: false,
        });
    }
}

// The front of two waiting frames, by what is proved of that of a list; either may be absent.
#[tactic(auto, unfolding(crate::specs::First::walk))]
fn ahead<R: Rule>(rule: &R, first: Option<Candidate>, next: Option<Candidate>) -> Option<Candidate>
    ensures { option_map candidate_of result ≡ ahead (R.before rule.now) (option_map candidate_of first) (option_map candidate_of next) }
{
    match (&first, &next) {
        (Some(a), Some(b)) if front_at(rule, &[a.shown, b.shown]) == Some(1) => next,
        _ => first.or(next),
    }
}
