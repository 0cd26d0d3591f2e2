ghost use Rattle.std.specs.Prelude.{◌≡◌, length};
ghost use Rattle.entries.specs.Columns.{Apart};

use crate::column::Column;
use lines::FIELDS;

// Which column each field of a line belongs to. No column comes twice.
#[derive(Clone, Copy, Debug, PartialEq, Eq)]
pub struct Order {
    pub(crate) columns: [Column; FIELDS],
    ghost five: { length columns ≡ 5 },
    ghost once: { Apart columns },
}
