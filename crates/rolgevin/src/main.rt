// The console: commands from standard input, a line each, and one line of answer to each.
#![tactic(auto)]

mod air_commands;
mod any_air;
mod command;
mod end_commands;
mod fault;
mod floor_commands;
mod line;
mod numbers;
mod path_commands;
mod session;
mod sheet_commands;
mod text;

use command::answer;
use session::Session;
use std::io::{BufRead, BufReader};

fn run(rt: &HostRuntime) -> anyhow::Result<()> {
    let heap = rt.alloc();
    let mut session = Session::new();
    for line in BufReader::new(heap, rt.stdin())?.split(heap, b'\n') {
        let line = line?;
        let reply = answer(heap, &mut session, line.as_slice())?;
        if !reply.is_empty() {
            println!(rt; "{reply}")?;
        }
    }
    Ok(())
}

fn main(rt: HostRuntime) -> anyhow::Result<()> {
    run(&rt)
}
