// From the bytes of an input to the bytes that are printed.
ghost use Rattle.std.specs.Prelude.{◌≡◌, IfOk, string_bytes};
ghost use Rattle.refusal.specs.Tests.{on_ok};
ghost use Rattle.streams.specs.Tables.{table_of};
ghost use Rattle.report.specs.Answers.{Admits, asked, printed};

use crate::lines::admitted_line;
use question::{ask, refused_line};
use refusal::Fault;
use std::alloc::{AllocError, Global};
use streams::Table;
use tablefile::read;

// The table that an input asks about, or its first fault: the word is tested before the table.
fn judge(input: &[u8]) -> Result<Table, Fault>
    ensures { on_ok table_of result ≡ asked input.now }
{
    read(ask(input)?.file)
}

// The bytes to print for an input, or `AllocError` where there is no memory for them.
// What it shares with `forecast_report` is this match alone: one function of both would take the reading and the printing as closures,
// and be longer than the match.
pub fn respond(heap: Global, input: &[u8]) -> Result<String, AllocError>
    ensures value { IfOk result (λ s. string_bytes s ≡ printed input.now) }
    ensures admits { IfOk result (λ s. Admits input.now (string_bytes s)) }
{
    match judge(input) {
        Ok(table) => admitted_line(heap, table.hyper_period(), table.history_count()),
        Err(fault) => refused_line(heap, fault),
    }
}
