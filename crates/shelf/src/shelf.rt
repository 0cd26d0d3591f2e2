ghost use Rattle.std.specs.Prelude.{◌≡◌, ◌≤◌, true, List, length, take, IfOk, MatchResult};
ghost use Rattle.lists.specs.Lists.{distinct};
ghost use Rattle.literals.specs.declared.literal.Literal.{Literal as Lit};
ghost use Rattle.literals.specs.Refusals.{first_failed, refusal_of};
ghost use Rattle.literals.specs.Settings.{set_of};
ghost use Rattle.shelf.specs.Meanings.{Answers, Every, Lawful, letter_checks, Meaning, mention_checks, OfRule};
ghost use Rattle.told.specs.Tellings.{Appended, back_checks, tell_checks};

use crate::lettered::Lettered;
use literals::{Literal, Refusal};
use rules::Verdict;

// A shelf made over more rules fails shut: it counts as one rule that every set breaks.
pub const MOST_RULES: usize = 1024;

// A shelf keeps rules, numbered from 1, and the literals it was told, in order. Asked, it answers as a scan of all its rules
// would, whatever it does to spare itself the scan. No call changes the rules, and a refused call changes nothing. It owes
// three laws: it has at most 1,024 rules, each has the laws of a rule, and no switch is told twice.
pub trait Shelf {
    // The letter of the kind: `LETTER.letter()` is `Letter.Lettered.code` to contracts. Its type carries the code because a ghost
    // constant beside a `const LETTER: char` is refused where the kind borrows, as `Plain` does.
    type Letter: Lettered;

    const LETTER: Self::Letter;

    ghost rules: { Self → List Meaning };

    ghost told: { Self → List Lit };

    // Appends the literal of this number to the told ones; refused by 1, 24 or 25.
    fn tell(&mut self, n: i16) -> Result<(), Refusal>
        ensures rules { rules self.new ≡ rules self.old }
        ensures refused { refusal_of result ≡ first_failed (tell_checks (told self.old) n) }
        ensures told { MatchResult result (λ _. Appended (told self.old) n (told self.new)) (λ _. self.new ≡ self.old) };

    // Leaves the first n told literals; refused by 30.
    fn take_back(&mut self, n: usize) -> Result<(), Refusal>
        ensures rules { rules self.new ≡ rules self.old }
        ensures refused { refusal_of result ≡ first_failed (back_checks (told self.old) n) }
        ensures told { MatchResult result (λ _. told self.new ≡ take n (told self.old)) (λ _. self.new ≡ self.old) };

    // What a scan of its rules gives for the set of the told literals.
    fn ask(&self) -> Verdict
        ensures { Answers (rules self.now) (set_of (told self.now)) result };

    fn rule_count(&self) -> usize
        ensures { result ≡ length (rules self.now) };

    fn told_count(&self) -> usize
        ensures { result ≡ length (told self.now) };

    // There is such a rule; refused by 13.
    fn check_rule(&self, rule: usize) -> Result<(), Refusal>
        ensures { refusal_of result ≡ first_failed (letter_checks (rules self.now) rule) }
    {
        if rule < 1 || rule > self.rule_count() {
            return Err(Refusal::NoSuchPlace);
        }
        Ok(())
    }

    // There is such a switch, and such a rule; refused by 1 or 13.
    fn check_mention(&self, rule: usize, switch: u8) -> Result<(), Refusal>
        ensures { refusal_of result ≡ first_failed (mention_checks (rules self.now) rule switch) }
    {
        Literal::of(switch, true)?;
        self.check_rule(rule)
    }

    // Whether a rule mentions a switch; refused by 1 or 13.
    fn mentions(&self, rule: usize, switch: u8) -> Result<bool, Refusal>
        ensures refused { refusal_of result ≡ first_failed (mention_checks (rules self.now) rule switch) }
        ensures is { IfOk result (λ b. OfRule (rules self.now) rule (λ m. b ≡ m.mentions switch)) };

    // The letter of the shelf that holds a rule; refused by 13.
    fn letter_of(&self, rule: usize) -> Result<char, Refusal>
        ensures refused { refusal_of result ≡ first_failed (letter_checks (rules self.now) rule) }
        ensures is { IfOk result (λ c. OfRule (rules self.now) rule (λ m. c ≡ m.letter)) };

    ghost few: { (s : Self) → length (rules s) ≤ 1024 };

    ghost lawful: { (s : Self) → Every (rules s) Lawful };

    ghost once: { (s : Self) → distinct (told s) ≡ true };
}
