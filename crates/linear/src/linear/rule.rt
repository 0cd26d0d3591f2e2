ghost use Rattle.std.specs.Prelude.{◌≡◌, Decides};
ghost use Rattle.rules.specs.Rules.{Forces};
ghost use Rattle.linear.specs.Linears.{rule_broken, rule_mentions, terms_of};
ghost use Rattle.linear.specs.Slacks.{above, slack};
ghost use Rattle.linear.specs.Laws.{linear_grows, linear_ignores};

use crate::linear::Linear;
use literals::{Literal, Setting};
use rules::Rule;

impl Rule for Linear {
    ghost breaks = { rule_broken };

    ghost mentions = { rule_mentions };

    ghost grows = { linear_grows };

    ghost ignores = { linear_ignores };

    fn is_broken(&self, set: &Setting) -> bool {
        self.slack(set) < 0
    }

    fn mentions_switch(&self, switch: u8) -> bool {
        self.terms().iter().any(|t| t.literal.switch() == switch)
    }

    // What it is for every kind of rule comes for a linear rule to this: the slack is not below 0, the switch is free and
    // the weight of the literal is above the slack.
    fn forces(&self, set: &Setting, l: Literal) -> bool
        ensures forces { Decides result (Forces (rule_broken self.now) set.now l) }
        ensures weighs { result ≡ above (terms_of self.now) (slack (terms_of self.now) self.now.degree set.now) set.now l }
    {
        let slack = self.slack(set);
        if slack < 0 || !set.is_free(l) {
            return false;
        }
        i64::from(self.weight(l)) > slack
    }

    fn first_forced(&self, set: &Setting) -> Option<Literal> {
        let slack = self.slack(set);
        self.first_above(set, slack)
    }
}
