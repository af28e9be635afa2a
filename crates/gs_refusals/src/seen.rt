//! What can be seen where memory may be missing.
use gs_streams::try_to_write;
use std::io::Write;

/// What was seen of some calls.
#[derive(Clone, Copy, Debug, PartialEq, Eq)]
pub enum Seen {
    /// None of them ran out of memory.
    Whole,
    /// Out of memory for a value or an argument.
    NoMemory,
    /// One of them ran out of memory, and left what it must leave then.
    Refused,
    /// Something else was seen.
    Wrong,
}

impl Seen {
    /// What was seen of these calls and of others.
    pub fn and(self, other: Seen) -> Seen {
        match (self, other) {
            (Seen::Wrong, _) | (_, Seen::Wrong) => Seen::Wrong,
            (Seen::Refused, _) | (_, Seen::Refused) => Seen::Refused,
            (Seen::NoMemory, _) | (_, Seen::NoMemory) => Seen::NoMemory,
            _ => Seen::Whole,
        }
    }

    /// What was seen of a call that ran out of memory, by whether what is read is the same as before.
    pub fn after(is_same: bool) -> Seen {
        match is_same {
            true => Seen::Refused,
            false => Seen::Wrong,
        }
    }

    fn words(self) -> &'static str {
        match self {
            Seen::Whole => "right, whole: ",
            Seen::NoMemory => "right, no memory to try it: ",
            Seen::Refused => "right, refused: ",
            Seen::Wrong => "wrong: ",
        }
    }

    /// Writes a line on what was seen.
    pub fn write_line<W: Write>(self, output: &mut W, name: &str) {
        try_to_write(output, self.words());
        try_to_write(output, name);
        try_to_write(output, "\n");
    }
}
