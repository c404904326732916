//! Answers a table of run books: the listing of each, as `bench_listing` writes it.
#![tactic(auto)]

mod bytes;
mod faults;

use crate::bytes::read_bytes;
use crate::faults::Expected;
use anyhow::anyhow;
use book::{LISTING_ROOM, bench_listing};
use std::io::Write;
use std::str::SplitWhitespace;

// what a place holds before the call; no listing has this byte
const FILLER: u8 = b'~';

// the listing into a place of `room` bytes; what it leaves of the place must hold the filler still
fn answer_book(rt: &HostRuntime, book: &[u8], room: usize) -> anyhow::Result<()> {
    let mut place = vec![in rt.alloc(); FILLER; room]?;
    let length = bench_listing(book, &mut place);
    let (listing, rest) = place.as_slice().split_at(length.unwrap_or(0));
    if !rest.iter().all(|byte| *byte == FILLER) {
        return Err(anyhow!("the place is written behind the listing"));
    }
    match length {
        None => println!(rt; "unwritten")?,
        Some(_) => rt.stdout().write_all(listing)?,
    }
    Ok(())
}

fn read_length(tokens: &mut SplitWhitespace<'_>) -> Result<usize, Expected> {
    let text = tokens.next().ok_or(Expected::Length)?;
    let length = text.parse::<usize>().map_err(|_| Expected::Length)?;
    match tokens.next() {
        None => Ok(length),
        Some(_) => Err(Expected::End),
    }
}

// a line that only comments, or holds nothing
fn is_silent(line: &str) -> bool {
    line.split_whitespace()
        .next()
        .is_none_or(|word| word.starts_with('#'))
}

// answers one line, and gives the room that the next book has
fn answer_line(rt: &HostRuntime, line: &str, room: usize) -> anyhow::Result<usize> {
    if is_silent(line) {
        println!(rt; "{line}")?;
        return Ok(room);
    }
    let mut tokens = line.split_whitespace();
    match tokens.next() {
        Some("book") => {
            let name = tokens.next().ok_or(Expected::Name)?;
            let book = read_bytes(rt.alloc(), &mut tokens)?;
            println!(rt; "book {name}")?;
            answer_book(rt, &book, room)?;
            Ok(LISTING_ROOM)
        }
        Some("place") => {
            let length = read_length(&mut tokens)?;
            println!(rt; "{line}")?;
            Ok(length)
        }
        _ => Err(Expected::Request.into()),
    }
}

fn run(rt: &HostRuntime) -> anyhow::Result<()> {
    let mut room = LISTING_ROOM;
    for (at, line) in rt.lines(rt.alloc()).enumerate() {
        match answer_line(rt, line?.as_str(), room) {
            Ok(next) => room = next,
            Err(error) => {
                let number = at.saturating_add(1);
                return Err(anyhow!(format!(in rt.alloc(); "line {number}: {error}")?));
            }
        }
    }
    Ok(())
}

fn main(rt: HostRuntime) -> anyhow::Result<()> {
    run(&rt)
}
