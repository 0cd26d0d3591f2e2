#![tactic(auto)]

// What every kind of rule has in common, and the scan of a list of rules.
ghost use Rattle.std.specs.Prelude.{◌≡◌, ℕ, Bool, Decides};
ghost use Rattle.literals.specs.declared.setting.Setting.{Setting};
ghost use Rattle.rules.specs.Rules.{Forces, Grows, Ignores, FirstForced};
ghost use Rattle.rules.specs.Scans.{Scans};

use literals::{Literal, Setting};
use std::fmt;

// A kind of rule means which sets of literals break it and which switches it mentions. It owes two laws: a set that
// contains a breaking set breaks the rule too, and a breaking set still breaks it when the literals of switches that
// it does not mention are left out.
pub trait Rule {
    ghost breaks: { Self → Setting → Bool };

    ghost mentions: { Self → ℕ → Bool };

    // The set breaks the rule.
    fn is_broken(&self, set: &Setting) -> bool
        ensures { result ≡ breaks self.now set.now };

    // The rule mentions the switch; a number above 64 is no switch and is not mentioned.
    fn mentions_switch(&self, switch: u8) -> bool
        ensures { result ≡ mentions self.now switch };

    // The rule forces the literal: the set does not break it, the switch is free, and the set with the opposite added breaks it.
    fn forces(&self, set: &Setting, l: Literal) -> bool
        ensures forces { Decides result (Forces (breaks self.now) set.now l) }
    {
        if self.is_broken(set) || !set.is_free(l) {
            return false;
        }
        self.is_broken(&set.with(l.opposite()))
    }

    // The literal of the lowest switch, on before off, that the rule forces; none where it is broken.
    fn first_forced(&self, set: &Setting) -> Option<Literal>
        ensures { FirstForced (breaks self.now) set.now result };

    ghost grows: { (r : Self) → Grows (breaks r) };

    ghost ignores: { (r : Self) → Ignores (mentions r) (breaks r) };
}

// What a list of rules, numbered from 1, has to say of a set.
#[derive(Clone, Copy, Debug, PartialEq, Eq, Hash)]
pub enum Verdict {
    // No rule is broken, and none forces a literal.
    Quiet,
    // The lowest rule that is not silent is broken.
    Broken(usize),
    // The lowest rule that is not silent forces this literal first.
    Forced(usize, Literal),
}

impl fmt::Display for Verdict {
    fn fmt<W: fmt::Write>(&self, f: &mut fmt::Formatter<W>) -> fmt::Result {
        match self {
            Verdict::Quiet => f.write_str("quiet"),
            Verdict::Broken(r) => write!(f, "rule {r} is broken"),
            Verdict::Forced(r, l) => write!(f, "rule {r} forces {l}"),
        }
    }
}

// The lowest-numbered rule that is broken or forces a literal. The index is part of the answer.
#[tactic(auto, using(crate::proofs::Numbers::found))]
pub fn scan<R: Rule>(records: &[R], set: &Setting) -> Verdict
    ensures { Scans R.breaks records.now set.now result }
{
    for (i, record) in records.iter().enumerate() {
        if record.is_broken(set) {
            return Verdict::Broken(i + 1);
        }
        if let Some(l) = record.first_forced(set) {
            return Verdict::Forced(i + 1, l);
        }
    }
    Verdict::Quiet
}
