ghost use Rattle.std.specs.Prelude.{◌≡◌, ◌≤◌, length};
ghost use Rattle.linear.specs.Linears.{terms_of};
ghost use Rattle.linear.specs.Slacks.{FirstAbove, slack};
ghost use Rattle.linear.specs.Terms.{weight_of};

use crate::linear::Linear;
use crate::term::Term;
use literals::{Literal, Setting};

impl Linear {
    pub fn terms(&self) -> &[Term]
        ensures value { result.now ≡ terms_of self.now }
        ensures some { 1 ≤ length result.now }
        ensures few { length result.now ≤ 16 }
    {
        self.terms.as_slice()
    }

    pub fn degree(&self) -> u32
        ensures { result ≡ self.now.degree }
    {
        self.degree
    }

    // The sum of the weights of all terms whose literal is not false, less the degree.
    pub fn slack(&self, set: &Setting) -> i64
        ensures { result ≡ slack (terms_of self.now) self.now.degree set.now }
    {
        i64::from(self.terms.counted(set)) - i64::from(self.degree)
    }

    // Of the free literals whose weight is above the number, the one of the lowest switch; none where the number is below 0.
    pub fn first_above(&self, set: &Setting, number: i64) -> Option<Literal>
        ensures { FirstAbove (terms_of self.now) number set.now result }
    {
        if number < 0 {
            return None;
        }
        // A `fold`: of what `min_by_key` picks the library has no lemma.
        self.terms()
            .iter()
            .fold(None, |best, t| t.improve(set, number, best))
    }

    // What the literal weighs in the rule, 0 where the rule has it not: it is compared with a slack as a number.
    pub fn weight(&self, l: Literal) -> u16
        ensures { result ≡ weight_of (terms_of self.now) l }
    {
        self.terms()
            .iter()
            .find(|t| t.literal == l)
            .map_or(0, |t| t.weight)
    }
}
