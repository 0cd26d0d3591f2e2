// A part of the text, and the place of its first byte, counted from 0.
#[derive(Clone, Copy, Debug, Default, PartialEq, Eq)]
pub struct Field<'a> {
    pub bytes: &'a [u8],
    pub place: usize,
}
