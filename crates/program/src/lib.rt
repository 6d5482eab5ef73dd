// How a program ends: what went wrong stands on standard error in one line, behind the program's name.
#![tactic(auto)]

ghost use Rattle.std.specs.Prelude.{◌≡◌, MatchResult};

use std::process::ExitCode;

// The status of a program that came to its end, or of one that did not.
pub fn exit_code(rt: &HostRuntime, program: &str, outcome: anyhow::Result<()>) -> ExitCode
    ensures { MatchResult outcome (λ _. result.status ≡ 0) (λ _. result.status ≡ 1) }
{
    match outcome {
        Ok(()) => ExitCode::SUCCESS,
        Err(error) => {
            let _ = eprintln!(rt; "{program}: {error}");
            ExitCode::FAILURE
        }
    }
}
