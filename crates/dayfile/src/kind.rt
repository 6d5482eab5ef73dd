// The kinds of commands, which their first byte names.
ghost use Rattle.dayfile.specs.Kind.{Decodes};

// In the order of their bytes, from 0 on.
#[derive(Clone, Copy, Debug, PartialEq)]
pub enum Kind {
    Write,
    Script,
    Build,
    Remove,
    Import,
}

// A byte that names no kind.
#[derive(Clone, Copy, Debug, PartialEq)]
pub struct UnknownKind;

impl TryFrom<u8> for Kind {
    type Error = UnknownKind;

    ghost try_from_gives = { Decodes };

    fn try_from(byte: u8) -> Result<Kind, UnknownKind> {
        match byte {
            0 => Ok(Kind::Write),
            1 => Ok(Kind::Script),
            2 => Ok(Kind::Build),
            3 => Ok(Kind::Remove),
            4 => Ok(Kind::Import),
            _ => Err(UnknownKind),
        }
    }
}
