// The kinds of entries. A kind's number is the byte that stands for it in a slot.
ghost use Rattle.std.specs.Prelude.{◌≡◌};
ghost use Rattle.std.specs.Result.{result_ok};
ghost use Rattle.entries.specs.Kind.{byte_of, kind_in};

#[derive(Clone, Copy)]
pub enum Kind {
    Name = 0,
    Bool = 1,
    Int = 2,
    String = 3,
}

// A byte that stands for no kind.
#[derive(Clone, Copy)]
pub struct UnknownKind;

impl TryFrom<u8> for Kind {
    type Error = UnknownKind;

    ghost try_from_gives = { λ byte r. result_ok r ≡ kind_in byte };

    fn try_from(byte: u8) -> Result<Kind, UnknownKind> {
        match byte {
            0 => Ok(Kind::Name),
            1 => Ok(Kind::Bool),
            2 => Ok(Kind::Int),
            3 => Ok(Kind::String),
            _ => Err(UnknownKind),
        }
    }
}

impl From<Kind> for u8 {
    ghost from_gives = { λ kind byte. byte ≡ byte_of kind };

    fn from(kind: Kind) -> u8 {
        kind as u8
    }
}
