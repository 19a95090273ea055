//! The hub: reads a script from standard input, carries each command out, and prints what came of it.
#![tactic(auto)]

mod answer;
mod hub;

use crate::hub::Hub;
use std::io::{BufRead, BufReader, Write};
use std::process::ExitCode;

// Lines are bytes: a comment may hold any text, and a line is printed just as it stands.
fn main(rt: HostRuntime) -> anyhow::Result<ExitCode> {
    let heap = rt.alloc();
    let mut hub = Hub::new();
    let lines = BufReader::new(heap, rt.stdin())?.split(heap, b'\n');
    // Numbers from 0: a range ends before the greatest of its type, and this one lasts until the reader gives up with an error.
    for (before, line) in (0u64..).zip(lines) {
        let line = line?;
        let line = line.as_slice();
        if script::is_passed_over(line) {
            continue;
        }
        let Some(command) = script::read(line) else {
            let number = before.saturating_add(1);
            eprint!(rt; "line {number}: cannot read: ")?;
            rt.stderr().write_all(line)?;
            eprintln!(rt)?;
            return Ok(ExitCode::FAILURE);
        };
        let answer = hub.carry_out(heap, command)?;
        rt.stdout().write_all(line)?;
        println!(rt; " -> {answer}")?;
    }
    Ok(ExitCode::SUCCESS)
}
