//! Items as text to words and back: one answer for each line of standard input.
#![tactic(auto)]

mod display;
mod kinds;
mod lines;
mod tokens;

use crate::lines::answer_line;
use std::io::{BufRead, BufReader};

fn print_answer(rt: &HostRuntime, line: &str) -> anyhow::Result<()> {
    match answer_line(line) {
        // blank lines and comments are headings of the output too
        Ok(None) => println!(rt; "{line}")?,
        Ok(Some(answer)) => println!(rt; "{answer}")?,
        Err(fault) => println!(rt; "{fault}")?,
    }
    Ok(())
}

fn run(rt: &HostRuntime) -> anyhow::Result<()> {
    let heap = rt.alloc();
    for line in BufReader::new(heap, rt.stdin())?.split(heap, b'\n') {
        let text = String::from_utf8_lossy(heap, line?.as_slice())?;
        print_answer(rt, text.trim_end())?;
    }
    Ok(())
}

fn main(rt: HostRuntime) -> anyhow::Result<()> {
    run(&rt)
}
