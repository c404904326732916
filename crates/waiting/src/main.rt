//! Makes the memory calls of a script and shows, after each, what waits and what has landed.
#![tactic(auto)]

mod line;
mod play;
mod request;
mod setup;
mod show;

fn main(rt: HostRuntime) -> anyhow::Result<()> {
    play::run(&rt)
}
