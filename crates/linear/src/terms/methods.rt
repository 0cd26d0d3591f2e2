ghost use Rattle.std.specs.Prelude.{◌≡◌, ◌≤◌, map, length, IfOk, sum};
ghost use Rattle.bounded.specs.Held.{held};
ghost use Rattle.linear.specs.Linears.{terms_checks};
ghost use Rattle.linear.specs.Terms.{bad_weights, counted, literals as literals_in, turned, weights as weights-in};
ghost use Rattle.literals.specs.Literals.{number};
ghost use Rattle.literals.specs.Refusals.{first_failed, refusal_of};

use crate::term::Term;
use crate::terms::Terms;
use bounded::Bounded;
use lists::{Literals, switch_twice};
use literals::{Refusal, Setting};

// Some weight is 0 or above the one before it.
fn weights_bad(weights: &[u16]) -> bool
    ensures { result ≡ bad_weights weights.now }
{
    // A `for`, as `windows(2)` would need a second pass for the zeros.
    let mut before = u16::MAX;
    for w in weights {
        if *w == 0 || *w > before {
            return true;
        }
        before = *w;
    }
    false
}

impl Terms {
    // The terms of these weights and literals. Refused by 2, 1, 3 or 4, the first in this order.
    pub(crate) fn read(weights: &[u16], numbers: &[i16]) -> Result<Terms, Refusal>
        ensures refused { refusal_of result ≡ first_failed (terms_checks weights.now numbers.now) }
        ensures weights { IfOk result (λ x. weights-in (held x.items) ≡ weights.now) }
        ensures literals { IfOk result (λ x. map number (literals_in (held x.items)) ≡ numbers.now) }
    {
        if weights.len() != numbers.len() {
            return Err(Refusal::TermCount);
        }
        let literals = Literals::read(numbers)?;
        if weights_bad(weights) {
            return Err(Refusal::Weight);
        }
        if switch_twice(literals.as_slice()) {
            return Err(Refusal::SwitchTwice);
        }
        let mut items = Bounded::new(Term::NONE);
        for (weight, literal) in weights.iter().zip(literals.as_slice()) {
            // There is room for as many as a list of literals has.
            let _ = items.push(Term {
                weight: *weight,
                literal: *literal,
            });
        }
        Ok(Terms { items })
    }

    // The same weights on the opposite literals.
    pub(crate) fn opposites(&self) -> Terms
        ensures { held result.items ≡ map turned (held self.now.items) }
    {
        let mut items = Bounded::new(Term::NONE);
        for t in self.as_slice() {
            // There is room for as many as these are.
            let _ = items.push(Term {
                weight: t.weight,
                literal: t.literal.opposite(),
            });
        }
        Terms { items }
    }

    pub(crate) fn as_slice(&self) -> &[Term]
        ensures value { result.now ≡ held self.now.items }
        ensures some { 1 ≤ length result.now }
        ensures few { length result.now ≤ 16 }
    {
        self.items.as_slice()
    }

    pub(crate) fn total(&self) -> u32
        ensures { result ≡ sum (weights-in (held self.now.items)) }
    {
        self.as_slice().iter().map(|t| u32::from(t.weight)).sum()
    }

    // The weights of the terms whose literal is not false.
    pub(crate) fn counted(&self, set: &Setting) -> u32
        ensures { result ≡ counted set.now (held self.now.items) }
    {
        self.as_slice()
            .iter()
            .map(|t| u32::from(t.counts(set)))
            .sum()
    }
}
