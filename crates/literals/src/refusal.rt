// Why a call is refused. Each case has the number by which panels know it.
ghost use Rattle.std.specs.Prelude.{◌≡◌};
ghost use Rattle.literals.specs.Refusals.{number_of};

use std::error::Error;
use std::fmt;

#[derive(Clone, Copy, Debug, PartialEq, Eq, Hash)]
pub enum Refusal {
    // ---- what was handed in

    // A literal or a switch is not one of 1 to 64 in size.
    OutOfRange = 1,
    // A rule has no terms, more than 16, or two lists of unequal length.
    TermCount = 2,
    // A weight is 0, too large, above the one before it, or not 1 in a book's clause.
    Weight = 3,
    // A rule has a switch twice.
    SwitchTwice = 4,
    // A degree is 0 or too large, an at-most bound is not below the sum of the weights, or not 1 in a book's clause.
    Degree = 5,
    // A book's first line is not the five names, or has no line break.
    NamesLine = 6,
    // A book's line is not five fields parted by one space and ended by a line break.
    Fields = 7,
    // A book's field is no number.
    NotNumber = 8,
    // A book's kind letter is unknown.
    KindLetter = 9,
    // A rule number does not continue, or the kind or the bound changes within a rule.
    RuleOrder = 10,
    // A linear rule comes after a clause in a book.
    KindOrder = 11,
    // A book has too many bytes.
    BookLength = 12,
    // There is no such rule, term or trail place, or a level is above 64.
    NoSuchPlace = 13,
    // ---- how things stand

    // The draft holds as many rules as it can.
    DraftFull = 21,
    // A clash stands.
    ClashStands = 22,
    // The session is not settled.
    Unsettled = 23,
    // The literal stands already.
    Stands = 24,
    // The opposite of the literal stands.
    OppositeStands = 25,
    // The level is not below the present one.
    LevelNotBelow = 26,
    // The receipt is not of the clash that stands, or none stands.
    WrongReceipt = 27,
    // The session is shut.
    Shut = 28,
    // The switch is free.
    SwitchFree = 29,
    // Fewer literals were told.
    FewerTold = 30,
}

impl From<Refusal> for u8 {
    ghost from_gives = { λ r n. n ≡ number_of r };

    fn from(refusal: Refusal) -> u8 {
        refusal as u8
    }
}

impl fmt::Display for Refusal {
    fn fmt<W: fmt::Write>(&self, f: &mut fmt::Formatter<W>) -> fmt::Result {
        f.write_str(match self {
            Refusal::OutOfRange => "a literal or a switch is not one of 1 to 64 in size",
            Refusal::TermCount =>
                "a rule has no terms, more than 16, or two lists of unequal length",
            Refusal::Weight =>
                "a weight is 0, too large, above the one before it, or not 1 in a book's clause",
            Refusal::SwitchTwice => "a rule has a switch twice",
            Refusal::Degree => "a degree or an at-most bound is not one that a rule may have",
            Refusal::NamesLine => "a book's first line is not the five names, or has no line break",
            Refusal::Fields =>
                "a book's line is not five fields parted by one space and ended by a line break",
            Refusal::NotNumber => "a book's field is no number",
            Refusal::KindLetter => "a book's kind letter is unknown",
            Refusal::RuleOrder =>
                "a rule number does not continue, or the kind or the bound changes within a rule",
            Refusal::KindOrder => "a linear rule comes after a clause in a book",
            Refusal::BookLength => "a book has too many bytes",
            Refusal::NoSuchPlace =>
                "there is no such rule, term or trail place, or a level is above 64",
            Refusal::DraftFull => "the draft holds as many rules as it can",
            Refusal::ClashStands => "a clash stands",
            Refusal::Unsettled => "the session is not settled",
            Refusal::Stands => "the literal stands already",
            Refusal::OppositeStands => "the opposite of the literal stands",
            Refusal::LevelNotBelow => "the level is not below the present one",
            Refusal::WrongReceipt => "the receipt is not of the clash that stands, or none stands",
            Refusal::Shut => "the session is shut",
            Refusal::SwitchFree => "the switch is free",
            Refusal::FewerTold => "fewer literals were told",
        })
    }
}

impl Error for Refusal {}
