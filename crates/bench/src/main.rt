//! Reads a run book from standard input and prints the listing of its run.
#![tactic(auto)]

use anyhow::anyhow;
use book::{LISTING_ROOM, LONGEST_BOOK, bench_listing};
use std::io::{Read, Write};

fn run(rt: &HostRuntime) -> anyhow::Result<()> {
    let mut book = Vec::new(rt.alloc());
    // one byte more than a book may have, so that one too long is seen to be
    rt.stdin()
        .take(LONGEST_BOOK as u64 + 1)
        .read_to_end(&mut book)?;
    let mut place = vec![in rt.alloc(); 0u8; LISTING_ROOM]?;
    let Some(length) = bench_listing(&book, &mut place) else {
        return Err(anyhow!("the listing has no room in its place"));
    };
    rt.stdout().write_all(&place[..length])?;
    Ok(())
}

fn main(rt: HostRuntime) -> anyhow::Result<()> {
    run(&rt)
}
