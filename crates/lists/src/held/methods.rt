ghost use Rattle.std.specs.Prelude.{◌≡◌, ◌≤◌, map, length, IfOk};
ghost use Rattle.lists.specs.Lists.{literals_of, read_checks};
ghost use Rattle.literals.specs.Literals.{number, opposite};
ghost use Rattle.literals.specs.Refusals.{first_failed, refusal_of};

use crate::held::{Literals, MOST_TERMS};
use bounded::Bounded;
use literals::{Literal, Refusal};

impl Literals {
    // The literals of these numbers, in order: refused by 2 unless there are 1 to 16, then by 1 where a number is that of no literal.
    pub fn read(numbers: &[i16]) -> Result<Literals, Refusal>
        ensures refused { refusal_of result ≡ first_failed (read_checks numbers.now) }
        ensures literals { IfOk result (λ x. map number (literals_of x) ≡ numbers.now) }
    {
        if numbers.is_empty() || numbers.len() > MOST_TERMS {
            return Err(Refusal::TermCount);
        }
        let mut items = Bounded::new(Literal::FIRST);
        for n in numbers {
            let literal = Literal::try_from(*n)?;
            // There is room for as many as were counted.
            let _ = items.push(literal);
        }
        Ok(Literals { items })
    }

    // The opposite of each, in the same order.
    pub fn opposites(&self) -> Literals
        ensures { literals_of result ≡ map opposite (literals_of self.now) }
    {
        let mut items = Bounded::new(Literal::FIRST);
        for l in self.as_slice() {
            // There is room for as many as this list has.
            let _ = items.push(l.opposite());
        }
        Literals { items }
    }

    pub fn as_slice(&self) -> &[Literal]
        ensures value { result.now ≡ literals_of self.now }
        ensures some { 1 ≤ length result.now }
        ensures few { length result.now ≤ 16 }
    {
        self.items.as_slice()
    }
}
