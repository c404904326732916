//! Plays a script on the memories that it names.
use crate::line::Says;
use crate::request::{Request, make};
use crate::setup::{Kind, Setup, Stack};
use crate::show::{Changes, LineOf, Show};
use anyhow::bail;
use memory::{Buffer, Loose, Memory, Prompt, Side};

// lines of the script, and the number of the first of them
#[derive(Clone, Copy)]
struct Part<'a> {
    lines: &'a [String],
    first: usize,
}

fn show_line<M: Show>(rt: &HostRuntime, memory: &M, side: Side) -> anyhow::Result<()> {
    let name = match side {
        Side::Feeder => "feeder",
        Side::Drawer => "drawer",
    };
    let line = LineOf { memory, side };
    println!(rt; "    {name}{line}")?;
    Ok(())
}

// makes a call, and shows what came of it
fn play_call<M: Show>(
    rt: &HostRuntime,
    memory: &mut M,
    text: &str,
    request: Request,
) -> anyhow::Result<()> {
    let before = memory.landed().to_vec(rt.alloc())?;
    match make(memory, request) {
        Ok(answer) => println!(rt; "{text} -> {answer}")?,
        Err(refusal) => {
            let number = refusal.number();
            println!(rt; "{text} -> refused {number}: {refusal}")?
        }
    }
    show_line(rt, memory, Side::Feeder)?;
    show_line(rt, memory, Side::Drawer)?;
    let changes = Changes {
        before: &before,
        now: memory.landed(),
    };
    println!(rt; "    landed{changes}")?;
    Ok(())
}

// makes the calls of these lines
fn play<M: Show>(rt: &HostRuntime, memory: &mut M, part: Part<'_>) -> anyhow::Result<()> {
    for (at, text) in part.lines.iter().enumerate() {
        let text = text.as_str();
        match text.parse() {
            Ok(Says::Nothing) => println!(rt; "{text}")?,
            Ok(Says::Call(request)) => play_call(rt, memory, text, request)?,
            _ => {
                let number = part.first.saturating_add(at);
                bail!("line {number} is no memory call: {text}")
            }
        }
    }
    Ok(())
}

// no call can be made here
fn play_none(rt: &HostRuntime, lines: &[String]) -> anyhow::Result<()> {
    for text in lines {
        println!(rt; "{text}")?;
        let Ok(Says::Nothing) = text.parse() else {
            bail!(
                "a memory comes first: prompt N, loose N, buffer DEPTH prompt N, buffer DEPTH loose N or pile N"
            );
        };
    }
    Ok(())
}

fn play_buffered<M: Show + Drop>(
    rt: &HostRuntime,
    below: M,
    depth: usize,
    calls: Part<'_>,
) -> anyhow::Result<()> {
    match Buffer::new(below, depth) {
        Ok(mut buffer) => play(rt, &mut buffer, calls),
        Err(refusal) => {
            let number = refusal.number();
            println!(rt; "refused {number}: {refusal}")?;
            play_none(rt, calls.lines)
        }
    }
}

// each arm makes a memory of another type, on which the same generic code plays
fn play_on(rt: &HostRuntime, setup: Setup, calls: Part<'_>) -> anyhow::Result<()> {
    let mut words = vec![in rt.alloc(); 0u64; setup.size]?;
    match setup.stack {
        Stack::Plain(Kind::Prompt) => play(rt, &mut Prompt::new(&mut words), calls),
        Stack::Plain(Kind::Loose) => play(rt, &mut Loose::new(&mut words), calls),
        Stack::Buffered {
            depth,
            kind: Kind::Prompt,
        } => play_buffered(rt, Prompt::new(&mut words), depth, calls),
        Stack::Buffered {
            depth,
            kind: Kind::Loose,
        } => play_buffered(rt, Loose::new(&mut words), depth, calls),
        Stack::Pile => play(rt, &mut Buffer::pile(&mut words), calls),
    }
}

fn play_part(rt: &HostRuntime, part: Part<'_>) -> anyhow::Result<()> {
    let Some((text, calls)) = part.lines.split_first() else {
        return Ok(());
    };
    let Ok(Says::Memory(setup)) = text.parse() else {
        return play_none(rt, part.lines);
    };
    println!(rt; "{text}")?;
    let calls = Part {
        lines: calls,
        first: part.first.saturating_add(1),
    };
    play_on(rt, setup, calls)
}

fn read_script(rt: &HostRuntime) -> anyhow::Result<Vec<String>> {
    let mut script = Vec::new(rt.alloc());
    for line in rt.lines(rt.alloc()) {
        script.push(line?)?;
    }
    Ok(script)
}

// what a line says is read when it is played, so that a long script is kept as its text alone
fn names_memory(line: &str) -> bool {
    matches!(line.parse(), Ok(Says::Memory(_)))
}

/// Reads the script from standard input and plays it, each memory with the lines behind it.
pub(crate) fn run(rt: &HostRuntime) -> anyhow::Result<()> {
    let script = read_script(rt)?;
    let mut first = 1usize;
    for lines in script.chunk_by(|_, line| !names_memory(line)) {
        play_part(rt, Part { lines, first })?;
        first = first.saturating_add(lines.len());
    }
    Ok(())
}
