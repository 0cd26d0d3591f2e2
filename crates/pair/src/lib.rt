#![tactic(auto)]

// The pair, letter x: a shelf made over two shelves. Its rules are the first's and then the second's, with numbers continued,
// each with the letter of the shelf that holds it.
ghost use Rattle.std.specs.Prelude.{◌≡◌, [], length, MatchResult, take};
ghost use Rattle.literals.specs.Refusals.{first_failed, refusal_of};
ghost use Rattle.pair.specs.Pairs.{Joined, pair_rules, PairView};
ghost use Rattle.pair.specs.Laws.{pair_few, pair_lawful};
ghost use Rattle.told.specs.Tellings.{Appended, back_checks, tell_checks};

use literals::Refusal;
use rules::Verdict;
use shelf::{Letter, Lettered, MOST_RULES, Shelf};
use std::marker::Model;

// Both shelves are told the same. `split` is how many rules the first has, none where there are too many in all.
#[derive(Drop)]
pub struct Pair<A: Shelf, B: Shelf> {
    first: A,
    second: B,
    split: Option<usize>,
}

// What holds of every pair is an invariant and no ghost field, so that a struct may keep a pair of shelves that are shelves by a
// generic impl. The view has all the fields, so contracts read them as if there were none.
impl<A: Shelf, B: Shelf> Model for Pair<A, B> {
    ghost Value = { PairView A B };

    ghost view = { λ p. record { first = p.first; second = p.second; split = p.split } };

    ghost invariant = { λ p. Joined (A.Shelf.rules p.first) (B.Shelf.rules p.second) (A.Shelf.told p.first) (B.Shelf.told p.second) p.split };
}

impl<A: Shelf, B: Shelf> Pair<A, B> {
    // Takes back all that either shelf was told.
    pub fn join(mut first: A, mut second: B) -> Pair<A, B>
        ensures rules { pair_rules (A.Shelf.rules result.first) (B.Shelf.rules result.second) ≡ pair_rules (A.Shelf.rules first) (B.Shelf.rules second) }
        ensures told { A.Shelf.told result.first ≡ [] }
        ensures joined { Joined (A.Shelf.rules result.first) (B.Shelf.rules result.second) (A.Shelf.told result.first) (B.Shelf.told result.second) result.split }
    {
        let _ = first.take_back(0);
        let _ = second.take_back(0);
        let count = first.rule_count();
        let split = if count + second.rule_count() > MOST_RULES {
            None
        } else {
            Some(count)
        };
        Pair {
            first,
            second,
            split,
        }
    }
}

impl<A: Shelf, B: Shelf> Shelf for Pair<A, B> {
    type Letter = Letter<120>;

    const LETTER: Letter<120> = Letter { letter: 'x' };

    ghost rules = { λ p. pair_rules (A.Shelf.rules p.first) (B.Shelf.rules p.second) };

    ghost told = { λ p. A.Shelf.told p.first };

    ghost few = { λ p. pair_few (A.Shelf.rules p.first) (B.Shelf.rules p.second) };

    ghost lawful = { λ p. pair_lawful (A.Shelf.rules p.first) (B.Shelf.rules p.second) (A.Shelf.lawful p.first) (B.Shelf.lawful p.second) };

    ghost once = { λ p. A.Shelf.once p.first };

    // Callers see no invariant, so what holds of every pair is said by these two and by `told_count`, beside what the trait says.
    fn tell(&mut self, n: i16) -> Result<(), Refusal>
        ensures rules { pair_rules (A.Shelf.rules self.new.first) (B.Shelf.rules self.new.second) ≡ pair_rules (A.Shelf.rules self.old.first) (B.Shelf.rules self.old.second) }
        ensures refused { refusal_of result ≡ first_failed (tell_checks (A.Shelf.told self.old.first) n) }
        ensures told { MatchResult result (λ _. Appended (A.Shelf.told self.old.first) n (A.Shelf.told self.new.first)) (λ _. self.new ≡ self.old) }
        ensures joined { Joined (A.Shelf.rules self.new.first) (B.Shelf.rules self.new.second) (A.Shelf.told self.new.first) (B.Shelf.told self.new.second) self.new.split }
    {
        self.first.tell(n)?;
        self.second.tell(n)
    }

    fn take_back(&mut self, n: usize) -> Result<(), Refusal>
        ensures rules { pair_rules (A.Shelf.rules self.new.first) (B.Shelf.rules self.new.second) ≡ pair_rules (A.Shelf.rules self.old.first) (B.Shelf.rules self.old.second) }
        ensures refused { refusal_of result ≡ first_failed (back_checks (A.Shelf.told self.old.first) n) }
        ensures told { MatchResult result (λ _. A.Shelf.told self.new.first ≡ take n (A.Shelf.told self.old.first)) (λ _. self.new ≡ self.old) }
        ensures joined { Joined (A.Shelf.rules self.new.first) (B.Shelf.rules self.new.second) (A.Shelf.told self.new.first) (B.Shelf.told self.new.second) self.new.split }
    {
        self.first.take_back(n)?;
        self.second.take_back(n)
    }

    fn ask(&self) -> Verdict {
        let Some(split) = self.split else {
            return Verdict::Broken(1);
        };
        match self.first.ask() {
            Verdict::Quiet => match self.second.ask() {
                Verdict::Quiet => Verdict::Quiet,
                Verdict::Broken(r) => Verdict::Broken(split + r),
                Verdict::Forced(r, l) => Verdict::Forced(split + r, l),
            },
            verdict => verdict,
        }
    }

    fn rule_count(&self) -> usize {
        self.split
            .map_or(1, |split| split + self.second.rule_count())
    }

    // The count of either shelf.
    fn told_count(&self) -> usize
        ensures count { result ≡ length (A.Shelf.told self.now.first) }
        ensures joined { Joined (A.Shelf.rules self.now.first) (B.Shelf.rules self.now.second) (A.Shelf.told self.now.first) (B.Shelf.told self.now.second) self.now.split }
    {
        self.first.told_count()
    }

    fn mentions(&self, rule: usize, switch: u8) -> Result<bool, Refusal> {
        match self.split {
            Some(split) if rule > split => self.second.mentions(rule - split, switch),
            Some(_) => self.first.mentions(rule, switch),
            None => {
                self.check_mention(rule, switch)?;
                Ok(false)
            }
        }
    }

    fn letter_of(&self, rule: usize) -> Result<char, Refusal> {
        match self.split {
            Some(split) if rule > split => self.second.letter_of(rule - split),
            Some(_) => self.first.letter_of(rule),
            None => {
                self.check_rule(rule)?;
                Ok(Self::LETTER.letter())
            }
        }
    }
}
