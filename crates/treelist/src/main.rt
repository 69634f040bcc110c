//! Reads a script from standard input, and prints what it shows or the line that refuses it.
#![tactic(auto)]

use anyhow::anyhow;
use scripts::faults::ScriptError;
use scripts::reading::{LIMIT, read};
use std::io::{Read, Write};

fn run(rt: &HostRuntime) -> anyhow::Result<()> {
    let mut script = Vec::new(rt.alloc());
    // One byte over the limit is enough to refuse a longer script.
    rt.stdin().take(LIMIT as u64 + 1).read_to_end(&mut script)?;
    match read(rt.alloc(), script.as_slice()) {
        Ok(record) => rt.stdout().write_all(record.as_slice())?,
        Err(ScriptError::Refused(refusal)) => println!(rt; "{refusal}")?,
        Err(ScriptError::NoMemory) => return Err(anyhow!("no memory for the record")),
    }
    Ok(())
}

fn main(rt: HostRuntime) -> anyhow::Result<()> {
    run(&rt)
}
