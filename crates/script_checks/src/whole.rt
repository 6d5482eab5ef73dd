// Whether a whole script is let in.
ghost use Rattle.script.specs.Allowed.{ScriptAllowed, script_fault, sources_in};
ghost use Rattle.std.specs.Prelude.{◌≡◌, is_ok, Decides};
ghost use Rattle.std.specs.Result.{result_err};

use rows::number_after;
use script::{LINE_SIZE, MAX_LINES, Refusal, SourceLine};

// More lines than a script may have are refused first, and then line by line.
pub fn check_script(lines: &[SourceLine]) -> Result<(), Refusal>
    ensures fault { result_err result ≡ script_fault lines.now }
    ensures exactly { Decides (is_ok result) (ScriptAllowed lines.now) }
{
    if lines.len() > MAX_LINES {
        return Err(Refusal::TooManyLines);
    }
    for (index, line) in lines.iter().enumerate() {
        let _ = line.check(index as u64)?;
    }
    Ok(())
}

// The same of a script in a row from elsewhere, whose count and lines may be anything. One loop over any iterator of lines
// would have to say what a run that is cut off has given, and is no plainer than these three lines again.
pub fn check_script_row(script: &[u64]) -> Result<(), Refusal>
    ensures fault { result_err result ≡ script_fault (sources_in script.now) }
    ensures exactly { Decides (is_ok result) (ScriptAllowed (sources_in script.now)) }
{
    let count = number_after(script, 0, 0) as usize;
    if count > MAX_LINES {
        return Err(Refusal::TooManyLines);
    }
    for index in 0..count {
        let line = SourceLine::read(script, 1 + LINE_SIZE * index);
        let _ = line.check(index as u64)?;
    }
    Ok(())
}
