ghost use Rattle.std.specs.Prelude.{◌≡◌, MatchOption};
ghost use Rattle.lines.specs.Fields.{fields_of, places_of};
ghost use Rattle.lines.specs.Lines.{LineAt, NoLineAt, after, places};

use crate::line::{FIELDS, Line};
use cursor::{Close, Field, Reader};

// What ends each field of a line.
const CLOSES: [Close; FIELDS] = [
    Close::Space,
    Close::Space,
    Close::Space,
    Close::Space,
    Close::Break,
];

// Reads the line that stands here, and goes on behind its line break. Stays where there is none.
pub fn read_line<'a>(reader: &mut Reader<'a>) -> Option<Line<'a>>
    ensures text { reader.new.text.now ≡ reader.old.text.now }
    ensures reads { MatchOption result
        (NoLineAt reader.old.text.now reader.old.at × (reader.new.at ≡ reader.old.at))
        (λ l. LineAt reader.old.text.now reader.old.at (fields_of l)
        × (places_of l ≡ places reader.old.at (fields_of l))
        × (reader.new.at ≡ after reader.old.at (fields_of l))) }
{
    let mut ahead = reader.ahead();
    let mut fields = [Field::default(); FIELDS];
    // By place: an array of what borrows from the text is not filled through `iter_mut` yet.
    for (i, &close) in CLOSES.iter().enumerate() {
        fields[i] = ahead.field_before(close)?;
    }
    *reader = ahead;
    Some(Line { fields })
}
