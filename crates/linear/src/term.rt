ghost use Rattle.std.specs.Prelude.{◌≡◌};
ghost use Rattle.linear.specs.Lowests.{improved, passes};
ghost use Rattle.linear.specs.Terms.{counts};

use literals::{Literal, Setting};

// What a literal weighs in a linear rule.
#[derive(Clone, Copy, Debug, PartialEq, Eq, Hash)]
pub struct Term {
    pub weight: u16,
    pub literal: Literal,
}

impl Term {
    // What stands in a place that holds nothing yet.
    pub(crate) const NONE: Term = Term {
        weight: 0,
        literal: Literal::FIRST,
    };

    // The weight, unless the literal is false.
    pub(crate) fn counts(&self, set: &Setting) -> u16
        ensures { result ≡ counts set.now self.now }
    {
        if set.is_false(self.literal) {
            0
        } else {
            self.weight
        }
    }

    // The best literal so far, or this term's where it is free, weighs more than the number and has a lower switch.
    pub(crate) fn improve(
        &self,
        set: &Setting,
        number: i64,
        best: Option<Literal>,
    ) -> Option<Literal>
        ensures { result ≡ improved (passes number set.now) best self.now }
    {
        let lower = best.is_none_or(|l| self.literal.switch() < l.switch());
        if i64::from(self.weight) > number && set.is_free(self.literal) && lower {
            Some(self.literal)
        } else {
            best
        }
    }
}
