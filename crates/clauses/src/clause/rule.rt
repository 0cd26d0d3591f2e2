ghost use Rattle.std.specs.Prelude.{◌≡◌, true, Decides, MatchOption};
ghost use Rattle.rules.specs.Rules.{Forces};
ghost use Rattle.clauses.specs.Clauses.{all_false, alone, clause_broken, clause_mentions, literals_in};
ghost use Rattle.clauses.specs.Openings.{FirstOpen};
ghost use Rattle.clauses.specs.Openness.{clause_grows, clause_ignores};

use crate::clause::Clause;
use lists::mentions;
use literals::{Literal, Setting};
use rules::Rule;

// The first literal that is not false.
fn first_open(literals: &[Literal], set: &Setting) -> Option<Literal>
    ensures { MatchOption result (all_false set.now literals.now ≡ true) (λ l. FirstOpen set.now literals.now l) }
{
    literals.iter().copied().find(|l| !set.is_false(*l))
}

impl Rule for Clause {
    ghost breaks = { clause_broken };

    ghost mentions = { clause_mentions };

    ghost grows = { clause_grows };

    ghost ignores = { clause_ignores };

    fn is_broken(&self, set: &Setting) -> bool {
        first_open(self.literals(), set).is_none()
    }

    fn mentions_switch(&self, switch: u8) -> bool {
        mentions(self.literals(), switch)
    }

    // What it is for every kind of rule comes for a clause to this: the switch is free, and the literal is one of the clause, of
    // which all others are false.
    fn forces(&self, set: &Setting, l: Literal) -> bool
        ensures forces { Decides result (Forces (clause_broken self.now) set.now l) }
        ensures alone { result ≡ alone (literals_in self.now) set.now l }
    {
        // The trait's own body, which has to stand here for the clause `alone`.
        if self.is_broken(set) || !set.is_free(l) {
            return false;
        }
        self.is_broken(&set.with(l.opposite()))
    }

    fn first_forced(&self, set: &Setting) -> Option<Literal> {
        first_open(self.literals(), set).filter(|l| self.forces(set, *l))
    }
}
