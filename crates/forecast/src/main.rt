// forecast: judges the stream table on standard input and prints what is to be said of it.
#![tactic(auto)]

use arrayvec::ArrayVec;
use report::respond;
use std::io;
use std::io::{Read, Write};

// At most this many bytes of standard input are read.
const MOST: usize = 4096;

fn main(rt: HostRuntime) -> io::Result<()> {
    let mut input = ArrayVec::<u8, MOST>::new();
    io::copy(&mut rt.stdin().take(MOST as u64), &mut input)?;
    let text = respond(rt.alloc(), input.as_slice())?;
    rt.stdout().write_all(text.as_bytes())
}
