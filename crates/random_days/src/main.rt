// Performs days of random commands from seeds, with a clean build beside each build, and counts what agrees.
#![tactic(auto)]

mod beside;
mod counter;
mod days;
mod drafts;
mod drawing;
mod entries;
mod expected;
mod fault;
mod judging;
mod pool;
mod refusals;
mod seed;
mod spoiling;
mod tally;
mod view;
mod watched;

use anyhow::anyhow;
use days::{Wrong, run_day};
use program::exit_code;
use std::env;
use std::process::ExitCode;
use tally::Tally;

fn main(rt: HostRuntime) -> ExitCode {
    exit_code(&rt, "random_days", run(&rt))
}

fn run(rt: &HostRuntime) -> anyhow::Result<()> {
    let mut arguments = env::args(rt)?;
    let _program = arguments.next();
    let days = read_number(arguments.next())?;
    let first = read_number(arguments.next())?;
    run_days(rt, days, first)
}

fn read_number(word: Option<String>) -> anyhow::Result<u64> {
    let Some(word) = word else {
        return Err(anyhow!("usage: random_days DAYS SEED"));
    };
    Ok(word.as_str().parse::<u64>()?)
}

fn run_days(rt: &HostRuntime, days: u64, first: u64) -> anyhow::Result<()> {
    let mut tally = Tally::default();
    for day in 0..days {
        report_day(rt, first.wrapping_add(day), &mut tally)?;
    }
    print!(rt; "{days} days from seed {first}, {tally}")?;
    if !tally.wrong.is_zero() {
        return Err(anyhow!("not all went as the rules have it"));
    }
    Ok(())
}

// A day that went as the rules have it prints nothing.
fn report_day(rt: &HostRuntime, seed: u64, tally: &mut Tally) -> anyhow::Result<()> {
    if let Some(Wrong { deed, fault }) = run_day(rt.alloc(), seed, tally)? {
        tally.wrong.count();
        println!(rt; "seed {seed} deed {deed}: {fault}")?;
    }
    Ok(())
}
