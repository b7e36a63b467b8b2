ghost use Rattle.std.specs.Prelude.{◌≡◌, map, IfSome, Some};
ghost use Rattle.bench.specs.Stands.{state_in, table_in, table_under};
ghost use Rattle.model.specs.Bench.{called, calls_from};
ghost use Rattle.model.specs.Bench.Plain.{laid, running};
ghost use Rattle.replay.specs.Stands.{call_of, rule_in, stands};
ghost use Rattle.std.specs.Option.{option_map};

use crate::call::Call;
use crate::either::Bench;
use bench::{Laid, Running};
use bus::Rule;

impl<R: Rule + Drop> Bench<R> {
    // Works a call. A refused call changes nothing. There is no bench after a call that it, laid or running by then, does not have.
    pub fn call(self, call: &Call) -> Option<Bench<R>>
        ensures bench { option_map stands result ≡ called (R.before (rule_in self)) (stands self) (call_of call.now) }
        ensures rule { IfSome result (λ b. rule_in b ≡ rule_in self) }
    {
        match self {
            Bench::Laid(bench) => call_laid(bench, call),
            Bench::Running(bench) => call_running(bench, call),
        }
    }

    // Works one call after the other.
    pub fn call_all(self, calls: &[Call]) -> Option<Bench<R>>
        ensures bench { option_map stands result ≡ calls_from (R.before (rule_in self)) (Some (stands self)) (map call_of calls.now) }
        ensures rule { IfSome result (λ b. rule_in b ≡ rule_in self) }
    {
        calls.iter().try_fold(self, |bench, call| bench.call(call))
    }
}

// Works a call on a laid bench.
// A match over the calls and no table of closures: each call is another method with other arguments.
fn call_laid<R: Rule + Drop>(mut bench: Laid<R>, call: &Call) -> Option<Bench<R>>
    ensures bench { option_map stands result ≡ called (R.before bench.rule) (laid (table_in bench)) (call_of call.now) }
    ensures rule { IfSome result (λ b. rule_in b ≡ bench.rule) }
{
    match call {
        Call::Fit { slot, numbers } => {
            let _ = bench.fit(*slot, *numbers);
        }
        Call::Pull { slot } => {
            let _ = bench.pull(*slot);
        }
        Call::Prime { slot, history } => {
            let _ = bench.prime(*slot, *history);
        }
        Call::Load { file } => {
            let _ = bench.load(file);
        }
        Call::Start => return Some(Bench::Running(bench.start())),
        Call::Advance { .. } | Call::Disturb | Call::Stop => return None,
    }
    Some(Bench::Laid(bench))
}

// Works a call on a running bench. A match and no table of closures, as for a laid one.
fn call_running<R: Rule + Drop>(mut bench: Running<R>, call: &Call) -> Option<Bench<R>>
    ensures bench { option_map stands result ≡ called (R.before bench.rule) (running (table_under bench) (state_in bench)) (call_of call.now) }
    ensures rule { IfSome result (λ b. rule_in b ≡ bench.rule) }
{
    match call {
        Call::Advance { units } => {
            let _ = bench.advance(*units);
        }
        Call::Disturb => {
            let _ = bench.disturb();
        }
        Call::Stop => return Some(Bench::Laid(bench.stop())),
        _ => return None,
    }
    Some(Bench::Running(bench))
}
