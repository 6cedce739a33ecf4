// The elements of a path so far, by numbers: where an element ends, and whether it is empty. Nothing is written here.
// Computes: Paths
#![tactic(auto)]

pub mod marks;
pub mod segments;

ghost use Rattle.std.specs.Prelude.{◌+◌, ◌<◌, ◌≤◌, eqb, ◌≡◌};
ghost use Rattle.rules.specs.Sizes.{max_document};
ghost use Rattle.text_elements.specs.Model.{max_path_bytes, emptied, finish_c, quoted_c};

use text_chars::{DocAt, TextAt, TextLen};

/// The elements of a path so far. The texts of all of them stand one behind the other in a lent buffer; the end of each and the place of
/// its first byte, in a table of marks.
#[derive(Clone, Copy)]
pub struct Path {
    /// how many elements are whole
    pub count: usize,
    /// how much text there is, that of the element that is being read included
    pub used: TextAt,
    /// where the text of that element begins
    pub from: TextAt,
    /// the place of its first byte
    pub place: DocAt,
    /// whether it has a quoted piece
    pub quotes: bool,
    /// whether one of the whole elements is empty and without quotes
    pub empty: bool,
}

/// Whether a byte outside quotes ends an element.
pub fn ends_element(b: u8) -> bool
    ensures { result ≡ eqb b 46 }
{
    b == b'.'
}

/// The place behind a dot, where the next element begins.
pub fn behind_dot(dot: DocAt) -> DocAt
    requires { dot.0 < max_document }
    ensures { result.0 ≡ dot.0 + 1 }
{
    DocAt(dot.0 + 1)
}

impl Path {
    // Whether an element so far is empty and without quotes, that which is being read included.
    fn has_empty(self) -> bool
        ensures { result ≡ emptied self }
    {
        if self.empty {
            return true;
        }
        if self.quotes {
            return false;
        }
        self.used.0 == self.from.0
    }

    /// The element that is being read is whole, and the next begins at a place.
    pub fn next_element(self, next: DocAt) -> Path
        requires { self.count ≤ max_document }
        ensures { result ≡ finish_c next.0 self }
    {
        Path {
            count: self.count + 1,
            from: self.used,
            place: next,
            quotes: false,
            empty: self.has_empty(),
            ..self
        }
    }

    /// A quoted piece whose text was written behind what is there.
    pub fn add_quoted(self, size: TextLen) -> Path
        requires { self.used.0 + size.0 ≤ max_path_bytes }
        ensures { result ≡ quoted_c size.0 self }
    {
        Path {
            used: TextAt(self.used.0 + size.0),
            quotes: true,
            ..self
        }
    }
}
