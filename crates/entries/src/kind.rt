ghost use Rattle.std.specs.Prelude.{◌≡◌, Decides};
ghost use Rattle.entries.specs.Kinds.{Lettered};

use std::error::Error;
use std::fmt;

// What kind of rule a line belongs to, known in a book by its letter: n, m or c.
#[derive(Clone, Copy, Debug, PartialEq, Eq, Hash)]
pub enum RuleKind {
    // The weights come to the bound at least.
    AtLeast,
    // The weights come to the bound at most.
    AtMost,
    Clause,
}

// A field that is the letter of no kind.
#[derive(Clone, Copy, Debug, PartialEq, Eq)]
pub struct UnknownKind;

// The kind whose letter is the whole field.
impl<'a> TryFrom<&'a [u8]> for RuleKind {
    type Error = UnknownKind;

    ghost try_from_gives = { λ field r. Lettered field.now r };

    fn try_from(field: &'a [u8]) -> Result<Self, UnknownKind> {
        match field {
            b"n" => Ok(RuleKind::AtLeast),
            b"m" => Ok(RuleKind::AtMost),
            b"c" => Ok(RuleKind::Clause),
            _ => Err(UnknownKind),
        }
    }
}

impl RuleKind {
    pub fn is(self, other: RuleKind) -> bool
        ensures { Decides result (self ≡ other) }
    {
        self == other
    }
}

impl fmt::Display for UnknownKind {
    fn fmt<W: fmt::Write>(&self, f: &mut fmt::Formatter<W>) -> fmt::Result {
        f.write_str("no kind of rule has this letter")
    }
}

impl Error for UnknownKind {}
