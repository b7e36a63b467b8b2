// From the bytes of an input to the bytes that are printed.
ghost use Rattle.forecast_report.specs.Answers.{Forecasts, Prints};
ghost use Rattle.std.specs.Prelude.{IfOk, string_bytes};

use crate::answering::{forecast_lines, started};
use question::refused_line;
use std::alloc::{AllocError, Global};

// The bytes to print for an input, or `AllocError` where there is no memory for them.
// What it shares with `report` is this match alone: one function of both would take the reading and the printing as closures,
// and be longer than the match.
pub fn respond(heap: Global, input: &[u8]) -> Result<String, AllocError>
    ensures prints { IfOk result (λ s. Prints input.now (string_bytes s)) }
    ensures forecasts { IfOk result (λ s. Forecasts input.now (string_bytes s)) }
{
    match started(input) {
        Ok(bench) => forecast_lines(heap, &bench),
        Err(fault) => refused_line(heap, fault),
    }
}
