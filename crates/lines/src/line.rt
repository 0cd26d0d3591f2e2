use cursor::Field;

// How many fields a line has.
pub const FIELDS: usize = 5;

// The fields of a line, in their order.
#[derive(Clone, Copy, Debug, PartialEq, Eq)]
pub struct Line<'a> {
    pub fields: [Field<'a>; FIELDS],
}
