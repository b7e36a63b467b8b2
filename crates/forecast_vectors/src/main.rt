// Answers many inputs in one run with forecasts: each line of standard input is one whole input in hexadecimal, and the lines of its
// forecast follow on standard output. The expected answers come from simulators that were made apart from this product.
// It stands beside the program without forecasts, which differs in the crate that answers: a main takes nothing that could tell the two apart,
// and what they share is `answer_all`.
#![tactic(auto)]

use forecast_report::respond;
use inputs::answer_all;
use std::io::BufReader;

fn main(rt: HostRuntime) -> anyhow::Result<()> {
    let heap = rt.alloc();
    let given = BufReader::new(heap, rt.stdin())?;
    // A closure and not `respond` itself: a proof cannot cite a function of another crate as a value.
    answer_all(heap, given, &mut rt.stdout(), |heap, input| {
        respond(heap, input)
    })
}
