// Performs days of commands from files, and prints what came of them.
#![tactic(auto)]

use anyhow::Context;
use program::exit_code;
use report::day_text;
use std::process::ExitCode;
use std::{env, fs};

fn main(rt: HostRuntime) -> ExitCode {
    exit_code(&rt, "day", run(&rt))
}

fn run(rt: &HostRuntime) -> anyhow::Result<()> {
    let mut arguments = env::args(rt)?;
    let _program = arguments.next();
    let first = arguments.next().context("usage: day FILE..")?;
    print_day(rt, first.as_str())?;
    for path in arguments {
        print_day(rt, path.as_str())?;
    }
    Ok(())
}

// Each file is a day of its own, in a house of its own.
fn print_day(rt: &HostRuntime, path: &str) -> anyhow::Result<()> {
    let bytes = fs::read(rt, path).context(format_args!("cannot read {path}"))?;
    let text = day_text(rt.alloc(), bytes.as_slice()).context("out of memory")?;
    print!(rt; "{text}")?;
    Ok(())
}
