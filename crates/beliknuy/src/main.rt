// Reads lines from standard input and writes their log to standard output.
#![tactic(auto)]

use logs::log::{MOST_BYTES, log};
use std::io;
use std::io::{Read, Write};

// The part of standard input that is answered: all of it, or its first `MOST_BYTES` bytes. The rest is not read.
fn read_input(rt: &HostRuntime) -> io::Result<Vec<u8>> {
    let mut input = Vec::new(rt.alloc());
    rt.stdin().take(MOST_BYTES as u64).read_to_end(&mut input)?;
    Ok(input)
}

fn run(rt: &HostRuntime) -> anyhow::Result<()> {
    let input = read_input(rt)?;
    let answered = log(rt.alloc(), &input)?;
    rt.stdout().write_all(&answered)?;
    Ok(())
}

// An error goes to standard error, by its text, and the program ends with status 1.
fn main(rt: HostRuntime) -> anyhow::Result<()> {
    run(&rt)
}
