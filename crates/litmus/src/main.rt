//! Runs the known shapes of weak memories through every order of steps and landings, and prints which outcomes can happen.
#![tactic(auto)]

mod runs;
mod shapes;

use memory::{Buffer, Loose, Prompt};
use runs::{can_happen, play};
use shapes::{SHAPES, Shape};

fn word(happens: bool) -> &'static str {
    if happens { "can" } else { "cannot" }
}

fn print_row(rt: &HostRuntime, shape: &Shape) -> anyhow::Result<()> {
    let name = shape.name;
    let asks = shape.asks;
    let outcome = shape.outcome;
    let prompt = word(can_happen(outcome, |words, order| {
        play(&mut Prompt::new(words), shape, order)
    }));
    let loose = word(can_happen(outcome, |words, order| {
        play(&mut Loose::new(words), shape, order)
    }));
    let pile = word(can_happen(outcome, |words, order| {
        play(&mut Buffer::pile(words), shape, order)
    }));
    println!(rt; "{name} | {asks} | {prompt} | {loose} | {pile}")?;
    Ok(())
}

fn print_table(rt: &HostRuntime) -> anyhow::Result<()> {
    println!(rt; "shape | outcome | prompt | loose | pile")?;
    for shape in &SHAPES {
        print_row(rt, shape)?;
    }
    Ok(())
}

fn main(rt: HostRuntime) -> anyhow::Result<()> {
    print_table(&rt)
}
