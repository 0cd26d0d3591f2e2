// Literal n says that switch n is on, -n that it is off.
ghost use Rattle.std.specs.Prelude.{◌≡◌};
ghost use Rattle.literals.specs.Literals.{number};
ghost use Rattle.literals.specs.Readings.{Reads};

use crate::literal::Literal;
use crate::refusal::Refusal;
use std::fmt;

impl TryFrom<i16> for Literal {
    type Error = Refusal;

    ghost try_from_gives = { Reads };

    fn try_from(n: i16) -> Result<Literal, Refusal> {
        // In these ranges a cast loses nothing, and needs no error of its own.
        match n {
            1..=64 => Ok(Literal {
                switch: n as u8,
                on: true,
            }),
            -64..=-1 => Ok(Literal {
                switch: (-n) as u8,
                on: false,
            }),
            _ => Err(Refusal::OutOfRange),
        }
    }
}

impl TryFrom<i32> for Literal {
    type Error = Refusal;

    ghost try_from_gives = { Reads };

    fn try_from(n: i32) -> Result<Literal, Refusal> {
        let small = i16::try_from(n).map_err(|_| Refusal::OutOfRange)?;
        Literal::try_from(small)
    }
}

impl From<Literal> for i16 {
    ghost from_gives = { λ l n. n ≡ number l };

    fn from(l: Literal) -> i16 {
        if l.on {
            i16::from(l.switch)
        } else {
            -i16::from(l.switch)
        }
    }
}

impl fmt::Display for Literal {
    fn fmt<W: fmt::Write>(&self, f: &mut fmt::Formatter<W>) -> fmt::Result {
        write!(f, "{}", i16::from(*self))
    }
}
