ghost use Rattle.std.specs.Prelude.{◌≡◌};

use literals::Refusal;
use runs::Clash;
use std::fmt;

// Stands for a clash, with the letter of the shelf that holds its rule. It cannot be let go: going back from the clash or closing the session takes it.
#[derive(Debug, PartialEq, Eq)]
pub struct Receipt {
    pub(crate) clash: Clash,
    pub(crate) letter: char,
}

// A refusal gives the receipt back.
#[derive(Debug, PartialEq, Eq)]
pub struct Returned {
    pub refusal: Refusal,
    pub receipt: Receipt,
}

// It prints as its refusal. `Error` is only for what may be let go, and a receipt may not.
impl fmt::Display for Returned {
    fn fmt<W: fmt::Write>(&self, f: &mut fmt::Formatter<W>) -> fmt::Result {
        write!(f, "{}", self.refusal)
    }
}

// How a settle ended. A clash is no failure of the call, so this is no `Result`.
#[derive(Debug, PartialEq, Eq)]
pub enum Outcome {
    // Settled: by how many literals the trail grew.
    Quiet(u8),
    Clash(Receipt),
}

impl Receipt {
    // The rule that is broken.
    pub fn rule(&self) -> usize
        ensures { result ≡ self.now.clash.rule }
    {
        self.clash.rule
    }

    // The level of the clash.
    pub fn level(&self) -> u8
        ensures { result ≡ self.now.clash.level }
    {
        self.clash.level
    }

    // The letter of the shelf that holds the rule.
    pub fn letter(&self) -> char
        ensures { result ≡ self.now.letter }
    {
        self.letter
    }

    // Going back and closing end here.
    pub(crate) fn spend(self) {
        let Receipt {
            clash: _,
            letter: _,
        } = self;
    }
}
