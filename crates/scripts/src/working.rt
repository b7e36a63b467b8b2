// The calls of a script on one bench.
use crate::answer::{Refused, Told};
use crate::command::Command;
use anyhow::bail;
use bench::{Laid, Running};
use bus::Ranking;
use replay::Bench;

// The bench after a call, and the call's answer.
pub(crate) type Worked = (Bench<Ranking>, Result<Told, Refused>);

// Works a call on a bench.
pub(crate) fn work(bench: Bench<Ranking>, command: &Command) -> anyhow::Result<Worked> {
    match bench {
        Bench::Laid(laid) => work_laid(laid, command),
        Bench::Running(running) => work_running(running, command),
    }
}

// A match of its own and not `replay`'s: that one lets every answer go, and here each is printed. One that gave them would need the kinds of answers
// and of refusals there, and forecasts and figures would still be a second match here.
// A match and no table of closures: each call is another method with other arguments.
fn work_laid(mut laid: Laid<Ranking>, command: &Command) -> anyhow::Result<Worked> {
    let changed = match command {
        Command::Fit { slot, numbers } => laid.fit(*slot, *numbers).map_err(Refused::from),
        Command::Pull { slot } => laid.pull(*slot).map_err(Refused::from),
        Command::Prime { slot, history } => laid.prime(*slot, *history).map_err(Refused::from),
        Command::Load { file } => laid.load(file).map_err(Refused::from),
        Command::Start => return Ok((Bench::Running(laid.start()), Ok(Told::Done))),
        _ => bail!("a laid bench has no such call"),
    };
    Ok((Bench::Laid(laid), changed.map(|()| Told::Done)))
}

// A match of its own and not `replay`'s, for the same two reasons.
fn work_running(mut running: Running<Ranking>, command: &Command) -> anyhow::Result<Worked> {
    let answer = match command {
        Command::Advance { units } => running
            .advance(*units)
            .map(Told::Units)
            .map_err(Refused::from),
        Command::Disturb => running.disturb().map(Told::Units).map_err(Refused::from),
        Command::Forecast => Ok(Told::Foretold(running.forecast())),
        Command::Figures => Ok(Told::Figured(running.figures())),
        Command::Stop => return Ok((Bench::Laid(running.stop()), Ok(Told::Done))),
        _ => bail!("a running bench has no such call"),
    };
    Ok((Bench::Running(running), answer))
}
