// A line of a script, read.
use crate::number::number;
use anyhow::Context;
use bus::Ranking;
use inputs::decoded;
use std::alloc::Global;
use streams::Numbers;

// What is said of a line that holds no command.
const NO_CALL: &str = "a line is no bench call";

// A new bench over a ranking rule, or a call of the bench with its arguments.
// It names the calls itself and holds no `replay::Call`: that one borrows its file, for which a command would need a lifetime and an owner beside it,
// and knows no forecast and no figures, so that the two kinds of calls would be matched one in the other.
#[derive(Drop)]
pub(crate) enum Command {
    Rule(Ranking),
    Fit { slot: u64, numbers: Numbers },
    Pull { slot: u64 },
    Prime { slot: u64, history: u64 },
    Load { file: Vec<u8> },
    Start,
    Advance { units: u64 },
    Disturb,
    Forecast,
    Figures,
    Stop,
}

// The command on a line.
pub(crate) fn parse(heap: Global, line: &str) -> anyhow::Result<Command> {
    let (name, rest) = line.split_once(' ').unwrap_or((line, ""));
    let command = match name {
        "rule" => Ranking::named(rest.as_bytes()).map(Command::Rule),
        "load" => decoded(heap, rest.as_bytes())?.map(|file| Command::Load { file }),
        _ => call(name, &numbers(heap, rest)?),
    };
    command.context(NO_CALL)
}

// The numbers of a line, with a space between two.
fn numbers(heap: Global, text: &str) -> anyhow::Result<Vec<u64>> {
    text.split_whitespace()
        .map(|word| number(word).context(NO_CALL))
        .try_collect(heap)
}

// The call of a name that is given only numbers, if there is one.
fn call(name: &str, given: &[u64]) -> Option<Command> {
    Some(match (name, given) {
        ("fit", &[slot, period, deadline, service, m, k, history]) => Command::Fit {
            slot,
            numbers: Numbers {
                period,
                deadline,
                service,
                m,
                k,
                history,
            },
        },
        ("pull", &[slot]) => Command::Pull { slot },
        ("prime", &[slot, history]) => Command::Prime { slot, history },
        ("start", []) => Command::Start,
        ("advance", &[units]) => Command::Advance { units },
        ("disturb", []) => Command::Disturb,
        ("forecast", []) => Command::Forecast,
        ("figures", []) => Command::Figures,
        ("stop", []) => Command::Stop,
        _ => return None,
    })
}
