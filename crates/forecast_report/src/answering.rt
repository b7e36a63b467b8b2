// From the bytes of an input to a running bench, and from there to the lines of its forecast.
ghost use Rattle.bench.specs.Stands.{state_in};
ghost use Rattle.forecast_report.specs.Answers.{Foretold, stood};
ghost use Rattle.refusal.specs.Tests.{on_ok};
ghost use Rattle.std.specs.Prelude.{◌≡◌, IfOk, string_bytes};

use bench::{Laid, Running};
use bus::{Ranking, Rule};
use question::ask;
use refusal::Fault;
use std::alloc::{AllocError, Global};

// The bench that an input asks about: its table, loaded on an empty bench under its ranking rule, and started; or the input's first fault.
pub(crate) fn started(input: &[u8]) -> Result<Running<Ranking>, Fault>
    ensures { on_ok (λ b. (b.rule, state_in b)) result ≡ stood input.now }
{
    let question = ask(input)?;
    let mut bench = Laid::new(question.ranking);
    bench.load(question.file)?;
    Ok(bench.start())
}

// The lines of the forecast from where a bench stands, with its figures.
pub(crate) fn forecast_lines<R: Rule>(
    heap: Global,
    bench: &Running<R>,
) -> Result<String, AllocError>
    ensures { IfOk result (λ s. Foretold (R.before bench.now.rule) (state_in bench.now) (string_bytes s)) }
{
    match bench.forecast_with_figures() {
        (forecast, Some(figures)) => format!(in heap; "{forecast}\n{figures}\n"),
        (forecast, None) => format!(in heap; "{forecast}\n"),
    }
}
