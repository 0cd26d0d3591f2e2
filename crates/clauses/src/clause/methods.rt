ghost use Rattle.std.specs.Prelude.{◌≡◌, ◌≤◌, map, length, IfOk};
ghost use Rattle.clauses.specs.Clauses.{clause_checks, literals_in};
ghost use Rattle.literals.specs.Literals.{number};
ghost use Rattle.literals.specs.Refusals.{first_failed, refusal_of};

use crate::clause::Clause;
use lists::{Literals, switch_twice};
use literals::{Literal, Refusal};

impl Clause {
    // The clause of these literals, in order. Refused by 2, 1 or 4, the first in this order.
    pub fn new(numbers: &[i16]) -> Result<Clause, Refusal>
        ensures refused { refusal_of result ≡ first_failed (clause_checks numbers.now) }
        ensures literals { IfOk result (λ x. map number (literals_in x) ≡ numbers.now) }
    {
        let literals = Literals::read(numbers)?;
        if switch_twice(literals.as_slice()) {
            return Err(Refusal::SwitchTwice);
        }
        Ok(Clause { literals })
    }

    pub fn literals(&self) -> &[Literal]
        ensures value { result.now ≡ literals_in self.now }
        ensures some { 1 ≤ length result.now }
        ensures few { length result.now ≤ 16 }
    {
        self.literals.as_slice()
    }
}
