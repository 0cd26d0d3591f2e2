ghost use Rattle.std.specs.Prelude.{◌≡◌};
ghost use Rattle.cursor.specs.Fields.{byte_of};

// What ends a field.
#[derive(Clone, Copy, Debug, PartialEq, Eq, Hash)]
pub enum Close {
    Space,
    Break,
}

impl Close {
    // The byte that it is in a text.
    pub fn byte(self) -> u8
        ensures { result ≡ byte_of self }
    {
        match self {
            Close::Space => b' ',
            Close::Break => b'\n',
        }
    }
}
