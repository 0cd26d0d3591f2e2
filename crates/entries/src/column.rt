ghost use Rattle.std.specs.Prelude.{◌≢◌, Decides};
ghost use Rattle.entries.specs.Columns.{Named};

use std::error::Error;
use std::fmt;

// A column of a rulebook.
#[derive(Clone, Copy, Debug, PartialEq, Eq, Hash)]
pub enum Column {
    Rule,
    Kind,
    Bound,
    Weight,
    Switch,
}

// A name that is the name of no column.
#[derive(Clone, Copy, Debug, PartialEq, Eq)]
pub struct UnknownColumn;

// The column of this name.
impl<'a> TryFrom<&'a [u8]> for Column {
    type Error = UnknownColumn;

    ghost try_from_gives = { λ name r. Named name.now r };

    fn try_from(name: &'a [u8]) -> Result<Self, UnknownColumn> {
        match name {
            b"rule" => Ok(Column::Rule),
            b"kind" => Ok(Column::Kind),
            b"bound" => Ok(Column::Bound),
            b"weight" => Ok(Column::Weight),
            b"switch" => Ok(Column::Switch),
            _ => Err(UnknownColumn),
        }
    }
}

impl Column {
    pub fn differs(self, other: Column) -> bool
        ensures { Decides result (self ≢ other) }
    {
        self != other
    }
}

impl fmt::Display for UnknownColumn {
    fn fmt<W: fmt::Write>(&self, f: &mut fmt::Formatter<W>) -> fmt::Result {
        f.write_str("no column has this name")
    }
}

impl Error for UnknownColumn {}
