ghost use Rattle.std.specs.Prelude.{◌≡◌, ◌≢◌, Contains, Decides, List, MatchOption, MatchResult, map};
ghost use Rattle.entries.specs.Entries.{Names};
ghost use Rattle.entries.specs.Columns.{Apart, name_of};
ghost use Rattle.lines.specs.Fields.{fields_of};

use crate::column::{Column, UnknownColumn};
use crate::order::Order;
use lines::{FIELDS, Line};

fn is_among(columns: &[Column], column: Column) -> bool
    ensures { Decides result (Contains columns.now column) }
{
    columns.contains(&column)
}

// No column comes twice: each is looked for among those before it.
fn all_differ(columns: &[Column]) -> bool
    ensures { Decides result (Apart columns.now) }
{
    for (i, &column) in columns.iter().enumerate() {
        if is_among(&columns[..i], column) {
            return false;
        }
    }
    true
}

// The columns that the fields of a line name.
fn columns_of(line: &Line) -> Result<[Column; FIELDS], UnknownColumn>
    ensures { MatchResult result
        (λ cs. fields_of line.now ≡ map name_of cs)
        (λ _. (cs : List Column) → fields_of line.now ≢ map name_of cs) }
{
    line.fields.try_map(|field| Column::try_from(field.bytes))
}

// The order of the columns that a names line gives, or none where it does not name each of the five once.
pub fn read_names(line: &Line) -> Option<Order>
    ensures { MatchOption result ((o : Order) → Names (fields_of line.now) o → ⊥) (λ o. Names (fields_of line.now) o) }
{
    let columns = columns_of(line).ok()?;
    if !all_differ(&columns) {
        return None;
    }
    Some(Order { columns })
}
