//! Plays two hand-overs of edits and prints each call as it ended: its move, side, answer, steps and word.
#![tactic(auto)]

use lane::{Ended, PutAnswer, TakeAnswer};
use memory::{Loose, Memory, Prompt, Side};
use queue::{Move, Said, play};
use std::fmt;
use words::{Edit, ItemFault, Kind, Setting};

fn print_put(
    rt: &HostRuntime,
    at: usize,
    offered: Edit,
    ended: Ended<PutAnswer<Edit>>,
) -> anyhow::Result<()> {
    let steps = ended.steps;
    let word = offered.to_word();
    match ended.answer {
        PutAnswer::Accepted => println!(rt; "{at} F in {steps} {word:016X}")?,
        PutAnswer::NoRing(_) => println!(rt; "{at} F no-ring {steps} {word:016X}")?,
        PutAnswer::Damaged => println!(rt; "{at} F damaged {steps}")?,
    }
    Ok(())
}

fn print_take(rt: &HostRuntime, at: usize, ended: Ended<TakeAnswer<Edit>>) -> anyhow::Result<()> {
    let steps = ended.steps;
    match ended.answer {
        TakeAnswer::Taken(item) => {
            let word = item.to_word();
            println!(rt; "{at} D out {steps} {word:016X}")?
        }
        TakeAnswer::Empty => println!(rt; "{at} D empty {steps} -")?,
        TakeAnswer::Damaged => println!(rt; "{at} D damaged {steps}")?,
    }
    Ok(())
}

fn print_calls(rt: &HostRuntime, moves: &[Move<Edit>], said: &[Said<Edit>]) -> anyhow::Result<()> {
    for (at, (made, answer)) in moves.iter().zip(said).enumerate() {
        let made = *made;
        match *answer {
            Said::Nothing => {}
            Said::Put(ended) => {
                if let Move::Feed(offered) = made {
                    print_put(rt, at, offered, ended)?;
                }
            }
            Said::Take(ended) => print_take(rt, at, ended)?,
        }
    }
    Ok(())
}

// Plays the moves on a lane of two rings, and prints the calls that ended.
fn hand_over<M: Memory + Drop>(
    rt: &HostRuntime,
    memory: M,
    cells: u8,
    moves: &[Move<Edit>],
    said: &mut [Said<Edit>],
) -> anyhow::Result<()> {
    match play(memory, 2, cells, 0, moves, said) {
        Ok(_) => print_calls(rt, moves, said),
        Err(refused) => Err(refused.why.into()),
    }
}

// Two rings of one cell: the second put goes on to the next ring, and the third finds none free.
fn fill_and_empty(rt: &HostRuntime) -> anyhow::Result<()> {
    let heat = Move::Feed(Edit::new(Setting::TopHeat, 1, 1, 250)?);
    let steam = Move::Feed(Edit::new(Setting::Steam, 1, 1, 4000)?);
    let damper = Move::Feed(Edit::new(Setting::Damper, 2, 1, 50)?);
    let draw = Move::Draw;
    let moves = [
        heat, heat, heat, steam, steam, steam, steam, steam, steam, steam, steam, damper, damper,
        draw, draw, draw, draw, draw, draw, draw, draw, draw, draw, draw, damper, damper, damper,
    ];
    let mut said = moves.map(|_| Said::Nothing);
    hand_over(rt, Prompt::new(&mut [0; 7]), 1, &moves, &mut said)
}

// A take before the item's store has landed, and one after.
fn wait_and_land(rt: &HostRuntime) -> anyhow::Result<()> {
    let heat = Move::Feed(Edit::new(Setting::TopHeat, 1, 1, 250)?);
    let draw = Move::Draw;
    let moves = [
        heat,
        heat,
        heat,
        draw,
        draw,
        Move::Land(Side::Feeder, 0),
        draw,
        draw,
    ];
    let mut said = moves.map(|_| Said::Nothing);
    hand_over(rt, Loose::new(&mut [0; 9]), 2, &moves, &mut said)
}

fn run(rt: &HostRuntime) -> anyhow::Result<()> {
    println!(rt; "prompt memory, 2 rings of 1 cell")?;
    fill_and_empty(rt)?;
    println!(rt; "loose memory, 2 rings of 2 cells")?;
    wait_and_land(rt)
}

fn main(rt: HostRuntime) -> anyhow::Result<()> {
    run(&rt)
}
