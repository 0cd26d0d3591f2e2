ghost use Rattle.std.specs.Prelude.{◌≡◌, MatchOption, MatchResult};
ghost use Rattle.entries.specs.Entries.{Bad, FirstBad, Holds, Keeps, Says, wrong};
ghost use Rattle.lines.specs.Fields.{fields_of, places_of};

use crate::column::Column;
use crate::kind::RuleKind;
use crate::order::Order;
use cursor::Field;
use lines::Line;
use literals::Refusal;
use numerals::{signed, unsigned};
use std::error::Error;
use std::fmt;

// The values of a line, as they are written there.
#[derive(Clone, Copy, Debug, PartialEq, Eq)]
pub struct Entry {
    pub rule: u32,
    pub kind: RuleKind,
    pub bound: u32,
    pub weight: u32,
    pub switch: i32,
}

// A field that writes no value of its column: the refusal, and the place of the field.
#[derive(Clone, Copy, Debug, PartialEq, Eq)]
pub struct BadField {
    pub refusal: Refusal,
    pub place: usize,
}

impl fmt::Display for BadField {
    fn fmt<W: fmt::Write>(&self, f: &mut fmt::Formatter<W>) -> fmt::Result {
        write!(f, "at byte {}: {}", self.place, self.refusal)
    }
}

impl Error for BadField {}

// What a field is refused by that writes no value of the column.
fn wrong(column: Column) -> Refusal
    ensures { result ≡ wrong column }
{
    match column {
        Column::Kind => Refusal::KindLetter,
        Column::Rule | Column::Bound | Column::Weight | Column::Switch => Refusal::NotNumber,
    }
}

impl Entry {
    // The entry with the value of one column as the field writes it, or none where it writes no value of it.
    fn written(self, column: Column, field: &[u8]) -> Option<Entry>
        ensures { MatchOption result (Bad column field.now) (λ e. Holds column field.now e × Keeps column self e) }
    {
        Some(match column {
            Column::Rule => Entry {
                rule: unsigned(field)?,
                ..self
            },
            Column::Kind => Entry {
                kind: RuleKind::try_from(field).ok()?,
                ..self
            },
            Column::Bound => Entry {
                bound: unsigned(field)?,
                ..self
            },
            Column::Weight => Entry {
                weight: unsigned(field)?,
                ..self
            },
            Column::Switch => Entry {
                switch: signed(field)?,
                ..self
            },
        })
    }

    // The entry with the value of one column as the field writes it. Refused by 8, or by 9 for a kind.
    fn with(self, column: Column, field: Field) -> Result<Entry, BadField>
        ensures { MatchResult result
            (λ e. Holds column field.entry.bytes.now e × Keeps column self e)
            (λ b. Bad column field.entry.bytes.now × (b.refusal ≡ wrong column) × (b.place ≡ field.entry.place)) }
    {
        self.written(column, field.bytes).ok_or(BadField {
            refusal: wrong(column),
            place: field.place,
        })
    }
}

// What a line says, in this order of columns. Refused by 8 or 9 for the first field that writes no value of its column.
pub fn read_entry(order: Order, line: &Line) -> Result<Entry, BadField>
    ensures { MatchResult result
        (λ e. Says order (fields_of line.now) e)
        (λ b. FirstBad order (fields_of line.now) (places_of line.now) b.refusal b.place) }
{
    let mut entry = Entry {
        rule: 0,
        kind: RuleKind::AtLeast,
        bound: 0,
        weight: 0,
        switch: 0,
    };
    for (&column, &field) in order.columns.iter().zip(&line.fields) {
        entry = entry.with(column, field)?;
    }
    Ok(entry)
}
