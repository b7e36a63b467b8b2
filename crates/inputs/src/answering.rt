// The answers of all lines.
ghost use Rattle.inputs.specs.Answers.{Answered, Gives};
ghost use Rattle.std.specs.Prelude.{OnOk};

use crate::decoding::decoded;
use anyhow::Context;
use std::alloc::{AllocError, Global};
use std::io::{BufRead, Write};

// Answers each line of a reader, and writes the answers one after the other.
pub fn answer_all<B: BufRead + Drop, W: Write, F: Fn(Global, &[u8]) -> Result<String, AllocError>>(
    heap: Global,
    given: B,
    told: &mut W,
    answer: F,
) -> anyhow::Result<()>
    requires { F.IsAlwaysCallable answer }
    ensures { OnOk result (Answered (Gives F.Fn answer heap) (B.remaining given) (W.contents told.old) (W.contents told.new)) }
{
    for line in given.lines(heap) {
        let input = decoded(heap, line?.as_bytes())?.context("a line is not in hexadecimal")?;
        told.write_all(answer(heap, &input)?.as_bytes())?;
    }
    Ok(())
}
