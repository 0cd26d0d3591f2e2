ghost use Rattle.std.specs.Prelude.{◌≡◌, ◌≤◌, true, false, length};
ghost use Rattle.bounded.specs.Held.{held};
ghost use Rattle.linear.specs.Terms.{bad_weights, literals, weights};
ghost use Rattle.lists.specs.Lists.{distinct};

mod methods;

use crate::term::Term;
use bounded::Bounded;
use lists::MOST_TERMS;

// The terms of a linear rule: 1 to 16, over distinct switches, no weight above the one before it.
#[derive(Clone, Copy)]
pub(crate) struct Terms {
    items: Bounded<Term, MOST_TERMS>,
    ghost some: { 1 ≤ length (held items) },
    ghost once: { distinct (literals (held items)) ≡ true },
    ghost falling: { bad_weights (weights (held items)) ≡ false },
}
