// Reads one command from the first of its bytes on.
ghost use Rattle.std.specs.Prelude.{◌≡◌, ◌<◌, ◌≤◌, true, length, IfSome, IfOk, MatchResult};
ghost use Rattle.dayfile.specs.Format.{carries_lines, deed_in, import_in, size_in, whole_size};
ghost use Rattle.house.specs.Deeds.{deed_of};

use super::kind::Kind;
use super::pieces::{Piece, read_pieces};
use byte_reading::{byte_at, read_u64};
use entry::Asking;
use house::Command;
use rows::tail;
use script::SourceLine;
use std::alloc::{AllocError, Global};

const KIND_BYTES: usize = 1;

// A desk and an item.
const PLACE_BYTES: usize = 2;

const ENTRY_BYTES: usize = 1;

// How many lines or askings there are.
const COUNT_BYTES: usize = 1;

const VALUE_BYTES: usize = 8;

// How many bytes the command takes, from its kind and the counts in it; None if no command has its kind.
fn size_of_command(bytes: &[u8]) -> Option<usize>
    ensures { result ≡ size_in bytes.now }
{
    let kind = Kind::try_from(byte_at(bytes, 0)).ok()?;
    let carried = match kind {
        Kind::Write => PLACE_BYTES + VALUE_BYTES,
        Kind::Script => {
            let lines = usize::from(byte_at(bytes, KIND_BYTES + PLACE_BYTES));
            PLACE_BYTES + COUNT_BYTES + SourceLine::SIZE * lines
        }
        Kind::Build => PLACE_BYTES,
        Kind::Remove => ENTRY_BYTES,
        Kind::Import => {
            let lines = COUNT_BYTES + SourceLine::SIZE * usize::from(byte_at(bytes, KIND_BYTES));
            let askings = usize::from(byte_at(tail(bytes, KIND_BYTES + lines), 0));
            lines + COUNT_BYTES + Asking::SIZE * askings + VALUE_BYTES
        }
    };
    Some(KIND_BYTES + carried)
}

// How many bytes the command takes, if its kind is known and all of it is there.
pub fn whole_command(bytes: &[u8]) -> Option<usize>
    ensures value { result ≡ whole_size bytes.now }
    ensures bound { IfSome result (λ size. (0 < size) × (size ≤ length bytes.now)) }
{
    size_of_command(bytes).filter(|size| *size <= bytes.len())
}

// The command, of which missing bytes read as 0; a kind above 4 reads as 4. Only what carries lines can want for memory.
pub fn read_command(heap: Global, bytes: &[u8]) -> Result<Command, AllocError>
    ensures { MatchResult result (λ command. deed_of command ≡ deed_in bytes.now) (λ _. carries_lines bytes.now ≡ true) }
{
    let desk = u64::from(byte_at(bytes, 1));
    let item = u64::from(byte_at(bytes, 2));
    let rest = tail(bytes, KIND_BYTES + PLACE_BYTES);
    match Kind::try_from(byte_at(bytes, 0)) {
        Ok(Kind::Write) => Ok(Command::Write {
            desk,
            item,
            value: read_u64(rest),
        }),
        Ok(Kind::Script) => {
            let lines = read_pieces(heap, tail(rest, COUNT_BYTES), byte_at(rest, 0))?;
            Ok(Command::Script { desk, item, lines })
        }
        Ok(Kind::Build) => Ok(Command::Build { desk, item }),
        Ok(Kind::Remove) => Ok(Command::Remove { entry: desk }),
        Ok(Kind::Import) | Err(_) => read_import(heap, bytes),
    }
}

fn read_import(heap: Global, bytes: &[u8]) -> Result<Command, AllocError>
    ensures { IfOk result (λ command. deed_of command ≡ import_in bytes.now) }
{
    let line_count = byte_at(bytes, KIND_BYTES);
    let lines = read_pieces(heap, tail(bytes, KIND_BYTES + COUNT_BYTES), line_count)?;
    let line_bytes = SourceLine::SIZE * usize::from(line_count);
    let rest = tail(bytes, KIND_BYTES + COUNT_BYTES + line_bytes);
    let asking_count = byte_at(rest, 0);
    let askings = read_pieces(heap, tail(rest, COUNT_BYTES), asking_count)?;
    let asking_bytes = Asking::SIZE * usize::from(asking_count);
    let result = read_u64(tail(rest, COUNT_BYTES + asking_bytes));
    Ok(Command::Import {
        lines,
        askings,
        result,
    })
}
