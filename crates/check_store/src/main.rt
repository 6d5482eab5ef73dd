// Says of each entry of a store from elsewhere what importing it would say.
#![tactic(auto)]

use anyhow::{Context, bail};
use program::exit_code;
use std::process::ExitCode;
use std::{env, fs};
use store::{check_entry, check_store, entry_count, entry_of};
use storefile::{StoreFileError, read_store};

fn main(rt: HostRuntime) -> ExitCode {
    exit_code(&rt, "check_store", run(&rt))
}

fn run(rt: &HostRuntime) -> anyhow::Result<()> {
    let path = env::args(rt)?.nth(1).context("usage: check_store FILE")?;
    let bytes = fs::read(rt, path.as_str()).context(format_args!("cannot read {path}"))?;
    match read_store(rt.alloc(), bytes.as_slice()) {
        Ok(rows) => print_store(rt, rows.as_slice()),
        Err(error @ StoreFileError::NotWholeNumbers) => bail!("{path} is {error}"),
        Err(error) => Err(error.into()),
    }
}

fn print_store(rt: &HostRuntime, rows: &[u64]) -> anyhow::Result<()> {
    if let Err(refusal) = check_store(rows) {
        println!(rt; "store {refusal}")?;
        return Ok(());
    }
    let count = entry_count(rows);
    let mut honest: u64 = 0;
    for index in 0..count {
        match check_entry(entry_of(rows, index as usize)) {
            Ok(()) => {
                println!(rt; "entry {index} honest")?;
                honest += 1;
            }
            Err(refusal) => println!(rt; "entry {index} {refusal}")?,
        }
    }
    println!(rt; "{honest} of {count} honest")?;
    Ok(())
}
