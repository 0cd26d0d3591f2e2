ghost use Rattle.std.specs.Prelude.{◌≡◌};
ghost use Rattle.bounded.specs.Held.{held};
ghost use Rattle.stated.specs.Pendings.{Holds};
ghost use Rattle.stated.specs.Stated.{Stated, begun, grown, small_switch, small_weight};

use crate::pending::Pending;
use bounded::Bounded;
use entries::{Entry, RuleKind};

fn small_weight(weight: u32) -> u16
    ensures { result ≡ small_weight weight }
{
    u16::try_from(weight).unwrap_or(0)
}

fn small_switch(switch: i32) -> i16
    ensures { result ≡ small_switch switch }
{
    match switch {
        -64..=64 => switch as i16,
        _ => 0,
    }
}

impl Pending {
    // The rule that a line begins.
    pub fn begin(entry: Entry) -> Pending
        ensures { Holds result (begun entry) }
    {
        let none = Pending {
            kind: entry.kind,
            bound: entry.bound,
            weights: Bounded::new(0),
            numbers: Bounded::new(0),
        };
        none.with(entry)
    }

    // The rule with the term of one line more.
    pub fn with(mut self, entry: Entry) -> Pending
        ensures { (s : Stated) → Holds self s → Holds result (grown s entry) }
    {
        // Where 17 are kept, the lists stay as they are.
        let _ = self.weights.push(small_weight(entry.weight));
        let _ = self.numbers.push(small_switch(entry.switch));
        self
    }

    pub fn kind(&self) -> RuleKind
        ensures { result ≡ self.now.kind }
    {
        self.kind
    }

    pub fn bound(&self) -> u32
        ensures { result ≡ self.now.bound }
    {
        self.bound
    }

    pub fn weights(&self) -> &[u16]
        ensures { result.now ≡ held self.now.weights }
    {
        self.weights.as_slice()
    }

    pub fn numbers(&self) -> &[i16]
        ensures { result.now ≡ held self.now.numbers }
    {
        self.numbers.as_slice()
    }
}
