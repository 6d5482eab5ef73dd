// The five commands of a day, with what each of them carries.
use entry::Asking;
use script::SourceLine;

// Lines and askings are as they came from outside: whether they are allowed is checked when the command is performed.
// Desk and item stand side by side, and not as a `Place`, since files and other languages hand over single numbers.
#[derive(Drop)]
pub enum Command {
    Write {
        desk: u64,
        item: u64,
        value: u64,
    },
    Script {
        desk: u64,
        item: u64,
        lines: Vec<SourceLine>,
    },
    Build {
        desk: u64,
        item: u64,
    },
    Remove {
        entry: u64,
    },
    Import {
        lines: Vec<SourceLine>,
        askings: Vec<Asking>,
        result: u64,
    },
}
