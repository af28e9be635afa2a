ghost use Rattle.std.specs.Prelude.{◌≡◌, string_bytes, nat_eq, IfOk};
ghost use Rattle.std.specs.Cmp.Lexicographic.{pointwise, nat_list_eq_equiv};
ghost use Rattle.std.specs.Cmp.{partial_equiv_from_equiv};

use crate::exact::ExactClone;
use std::alloc::{AllocError, Global};
use std::marker::Model;

/// A text. Contracts see its UTF-8 bytes, but neither its capacity nor its place in memory.
#[derive(Debug, Drop)]
pub struct Text {
    text: String,
}

impl Model for Text {
    ghost use Rattle.std.specs.Prelude.{List, ℕ, string_bytes};

    ghost Value = { List ℕ };

    ghost view = { λ t. string_bytes t.text };
}

impl Text {
    /// Returns a copy of a text.
    ///
    /// # Errors
    /// `AllocError` when out of memory.
    pub fn from_str(alloc: Global, text: &str) -> Result<Text, AllocError>
        ensures { IfOk result (λ copy. copy ≡ text.now) }
    {
        Ok(Text {
            text: String::from_str(alloc, text)?,
        })
    }

    /// Returns the text as a slice, and copies nothing.
    pub fn as_str(&self) -> &str
        ensures { result.now ≡ self.now }
    {
        self.text.as_str()
    }
}

impl From<String> for Text {
    ghost from_gives = { λ text made. made ≡ string_bytes text };

    fn from(text: String) -> Text {
        Text { text }
    }
}

impl Clone for Text {
    ghost is_clone = { λ source copy. copy ≡ source };

    fn clone(&self) -> Result<Text, AllocError> {
        Ok(Text {
            text: self.text.clone()?,
        })
    }
}

impl ExactClone for Text {
    ghost exact = { λ source copy same. same };
}

impl PartialEq for Text {
    ghost eq = { pointwise nat_eq };

    ghost laws = { partial_equiv_from_equiv nat_list_eq_equiv };

    fn eq(&self, other: &Text) -> bool {
        self.as_str() == other.as_str()
    }
}

impl Eq for Text {
    ghost laws = { nat_list_eq_equiv };
}
