// Sets of literals, one to a line of text.
use lists::collect;
use literals::{Refusal, Setting};
use std::alloc::{AllocError, AllocFailed, Global};
use std::error::Error;
use std::fmt;

// Why the lines of a text give no sets.
#[derive(Clone, Copy, Debug, PartialEq, Eq)]
pub enum Trouble {
    // A line is refused.
    Refused { line: usize, refusal: Refusal },
    OutOfMemory,
}

impl fmt::Display for Trouble {
    fn fmt<W: fmt::Write>(&self, f: &mut fmt::Formatter<W>) -> fmt::Result {
        match self {
            Trouble::Refused { line, refusal } => {
                write!(f, "line {line}: refused {}", u8::from(*refusal))
            }
            Trouble::OutOfMemory => write!(f, "{AllocError}"),
        }
    }
}

impl Error for Trouble {}

impl<T: Drop> From<AllocFailed<T>> for Trouble {
    fn from(_e: AllocFailed<T>) -> Trouble {
        Trouble::OutOfMemory
    }
}

// A word is the number of a literal; what is too large for one is no literal either.
fn read_number(word: &str) -> Result<i16, Refusal> {
    let number = word.parse::<i64>().map_err(|_| Refusal::NotNumber)?;
    i16::try_from(number).map_err(|_| Refusal::OutOfRange)
}

// The set of one line: all its words are read before any is taken for a literal.
fn read_set(heap: Global, line: usize, text: &str) -> Result<Setting, Trouble> {
    let refused = |refusal| Trouble::Refused { line, refusal };
    let mut numbers = Vec::new(heap);
    for word in text.split_whitespace() {
        numbers.push(read_number(word).map_err(refused)?)?;
    }
    collect(numbers.as_slice()).map_err(refused)
}

// The set of each line, or the first line that is refused, by its number.
pub fn read_sets(heap: Global, text: &str) -> Result<Vec<Setting>, Trouble> {
    let mut sets = Vec::new(heap);
    for (i, line) in text.lines().enumerate() {
        sets.push(read_set(heap, i + 1, line)?)?;
    }
    Ok(sets)
}

#[cfg(test)]
mod tests {
    use super::*;

    #[test]
    fn names_the_line_and_the_refusal(rt: HostRuntime) {
        let cases = [
            ("x", 1, Refusal::NotNumber),
            ("4\n1 2 x", 2, Refusal::NotNumber),
            ("4 1\n\n65", 3, Refusal::OutOfRange),
            ("0\nx", 1, Refusal::OutOfRange),
            ("100000 x", 1, Refusal::OutOfRange),
        ];
        for (text, line, refusal) in cases {
            let trouble = Trouble::Refused { line, refusal };
            assert_eq!(rt;
                read_sets(rt.alloc(), text).err(),
                Some(trouble),
                "at {text}"
            );
        }
    }
}
