#![tactic(auto)]

// The plain shelf, letter p: the caller's records of any kind of rule, scanned at every question.
ghost use Rattle.std.specs.Prelude.{◌≡◌, [], length, nat_lt};
ghost use Rattle.plain.specs.Plains.{plain_rules};
ghost use Rattle.plain.specs.Laws.{plain_few, plain_lawful};
ghost use Rattle.told.specs.Laws.{told_distinct};
ghost use Rattle.told.specs.Lists.{told_of};

use literals::Refusal;
use rules::{Rule, Verdict, scan};
use shelf::{Letter, Lettered, MOST_RULES, Shelf};
use told::Told;

// Borrows the records for reading.
#[derive(Drop)]
pub struct Plain<'a, R> {
    records: &'a [R],
    told: Told,
}

impl<'a, R: Rule> Plain<'a, R> {
    pub fn new(records: &'a [R]) -> Plain<'a, R>
        ensures records { result.records.now ≡ records.now }
        ensures told { told_of result.told ≡ [] }
    {
        Plain {
            records,
            told: Told::new(),
        }
    }

    // There are more records than a shelf may have rules.
    fn is_over(&self) -> bool
        ensures { result ≡ nat_lt 1024 (length self.now.records.now) }
    {
        self.records.len() > MOST_RULES
    }
}

impl<'a, R: Rule> Shelf for Plain<'a, R> {
    type Letter = Letter<112>;

    const LETTER: Letter<112> = Letter { letter: 'p' };

    ghost rules = { λ p. plain_rules R.Rule.breaks R.Rule.mentions p.records.now };

    ghost told = { λ p. told_of p.told };

    ghost few = { λ p. plain_few R.Rule.breaks R.Rule.mentions p.records.now };

    ghost lawful = { λ p. plain_lawful R.Rule.breaks R.Rule.mentions p.records.now R.Rule.grows R.Rule.ignores };

    ghost once = { λ p. told_distinct p.told };

    fn tell(&mut self, n: i16) -> Result<(), Refusal> {
        self.told.tell(n)
    }

    fn take_back(&mut self, n: usize) -> Result<(), Refusal> {
        self.told.take_back(n)
    }

    fn ask(&self) -> Verdict {
        if self.is_over() {
            return Verdict::Broken(1);
        }
        scan(self.records, self.told.set())
    }

    fn rule_count(&self) -> usize {
        if self.is_over() {
            1
        } else {
            self.records.len()
        }
    }

    fn told_count(&self) -> usize {
        self.told.count()
    }

    fn mentions(&self, rule: usize, switch: u8) -> Result<bool, Refusal> {
        self.check_mention(rule, switch)?;
        if self.is_over() {
            return Ok(false);
        }
        Ok(self.records[rule - 1].mentions_switch(switch))
    }

    fn letter_of(&self, rule: usize) -> Result<char, Refusal> {
        self.check_rule(rule)?;
        Ok(Self::LETTER.letter())
    }
}
