// Works scripts of bench calls: each line of standard input is one call, and one line of answer follows on standard output.
// The expected answers come from simulators that were made apart from this product.
#![tactic(auto)]

use crate::answer::Told;
use crate::command::{Command, parse};
use crate::working::work;
use anyhow::Context;
use bench::Laid;
use replay::Bench;
use std::io::{BufRead, BufReader};

mod answer;
mod command;
mod number;
mod working;

// The commands on the lines of standard input.
fn read_commands(rt: &HostRuntime) -> anyhow::Result<Vec<Command>> {
    let heap = rt.alloc();
    BufReader::new(heap, rt.stdin())?
        .lines(heap)
        .map(|line| parse(heap, line?.as_str()))
        .try_collect(heap)
}

// Works the commands of a script: each `rule` makes a bench for the calls up to the next.
fn run(rt: &HostRuntime) -> anyhow::Result<()> {
    let mut made = None;
    for command in &read_commands(rt)? {
        let (bench, answer) = match command {
            Command::Rule(ranking) => (Bench::Laid(Laid::new(*ranking)), Ok(Told::Done)),
            call => work(made.context("the first line makes no bench")?, call)?,
        };
        match answer {
            Ok(told) => rt.println(told)?,
            Err(refused) => rt.println(refused)?,
        }
        made = Some(bench);
    }
    Ok(())
}

fn main(rt: HostRuntime) -> anyhow::Result<()> {
    run(&rt)
}
