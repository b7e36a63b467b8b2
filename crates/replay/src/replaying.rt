ghost use Rattle.std.specs.Prelude.{◌≡◌, map, IfSome};
ghost use Rattle.model.specs.Bench.{plain};
ghost use Rattle.replay.specs.Replays.{Replays};
ghost use Rattle.replay.specs.Stands.{call_of, rule_in, stands};
ghost use Rattle.std.specs.Option.{option_map};

use crate::call::Call;
use crate::either::Bench;
use crate::replayed::Replayed;
use bench::Laid;
use bus::Rule;

// The bench over a rule after a list of calls: it begins laid and empty.
pub fn after<R: Rule + Drop>(rule: R, calls: &[Call]) -> Option<Bench<R>>
    ensures bench { option_map stands result ≡ plain (R.before rule) (map call_of calls.now) }
    ensures rule { IfSome result (λ b. rule_in b ≡ rule) }
{
    Bench::Laid(Laid::new(rule)).call_all(calls)
}

// Works a list of calls on a bench over a rule, laid and empty at first, and forecasts if it then runs.
pub fn replay<R: Rule + Drop>(rule: R, calls: &[Call]) -> Replayed
    ensures { Replays (R.before rule) (map call_of calls.now) result }
{
    match after(rule, calls) {
        Some(Bench::Running(bench)) => Replayed::Foretold(bench.forecast()),
        Some(Bench::Laid(_)) => Replayed::Laid,
        None => Replayed::NoSuchCall,
    }
}
