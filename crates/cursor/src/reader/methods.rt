ghost use Rattle.std.specs.Prelude.{◌≡◌, ℕ, ◌<◌, ◌≤◌, List, length, Decides, MatchOption};
ghost use Rattle.cursor.specs.Fields.{FieldAt, FieldEnd, NoFieldAt, Plain, byte_of, past};

use crate::close::Close;
use crate::field::Field;
use crate::reader::Reader;

// Spaces and line breaks end fields.
fn ends(byte: u8) -> bool
    ensures { Decides result (¬ (Plain byte)) }
{
    byte == Close::Space.byte() || byte == Close::Break.byte()
}

// The place of the first byte that ends a field.
fn field_end(text: &[u8]) -> Option<usize>
    ensures { MatchOption result
        (FieldEnd text.now 0 (length text.now))
        (λ end. FieldEnd text.now 0 end × (end < length text.now)) }
{
    text.iter().position(|&byte| ends(byte))
}

impl<'a> Reader<'a> {
    // Stands at the front of a text.
    pub fn new(text: &'a [u8]) -> Reader<'a>
        ensures text { result.text.now ≡ text.now }
        ensures at { result.at ≡ 0 }
    {
        Reader { text, at: 0 }
    }

    // Another reader, at the same place of the same text: a copy, by a name that says what it is for.
    pub fn ahead(&self) -> Reader<'a>
        ensures text { result.text.now ≡ self.now.text.now }
        ensures at { result.at ≡ self.now.at }
    {
        *self
    }

    pub fn place(&self) -> usize
        ensures at { result ≡ self.now.at }
        ensures within { result ≤ length self.now.text.now }
    {
        self.at
    }

    // The whole text is read.
    pub fn at_end(&self) -> bool
        ensures { Decides result (self.now.at ≡ length self.now.text.now) }
    {
        self.at == self.text.len()
    }

    // Reads the field that stands here before what ends it, and passes both. Stays where there is none.
    pub fn field_before(&mut self, close: Close) -> Option<Field<'a>>
        ensures text { self.new.text.now ≡ self.old.text.now }
        ensures reads { MatchOption result
            (NoFieldAt self.old.text.now self.old.at (byte_of close) × (self.new.at ≡ self.old.at))
            (λ f. FieldAt self.old.text.now self.old.at f.bytes.now (byte_of close)
            × (f.place ≡ self.old.at)
            × (self.new.at ≡ past self.old.at f.bytes.now)) }
    {
        let rest = &self.text[self.at..];
        let end = field_end(rest)?;
        if end == 0 || rest[end] != close.byte() {
            return None;
        }
        let place = self.at;
        self.at += end + 1;
        Some(Field {
            bytes: &rest[..end],
            place,
        })
    }
}
