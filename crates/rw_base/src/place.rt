// Places in a source, as lines and columns, and the spans of trees.
ghost use Rattle.std.specs.Prelude.{◌≡◌, ◌+◌, ◌^◌, ◌<◌, ◌≤◌, length, take};
ghost use Rattle.rw_base.specs.Places.{next_line, next_column, place_after};

/// A place in a source: its line and its column, both from 1. The place 0:0 stands in trees alone, for what no
/// source declares.
#[derive(Clone, Copy, Debug, PartialEq, Eq, PartialOrd, Ord)]
pub struct Place {
    pub line: u32,
    pub column: u32,
}

/// The tokens of a node of a tree: those from number `from` up to, but without, number `to`, counted from 0 in
/// the list that was read. `first` is the place of the first of them.
#[derive(Clone, Copy, Debug, PartialEq, Eq)]
pub struct Span {
    pub first: Place,
    pub from: u32,
    pub to: u32,
}

impl Place {
    /// The place of the first byte of a source.
    pub const START: Place = Place { line: 1, column: 1 };

    /// The place of the byte after this one, which is `byte`.
    pub fn after(self, byte: u8) -> Place
        requires line { self.line + 1 < 2 ^ 32 }
        requires column { self.column + 8 < 2 ^ 32 }
        ensures line { result.line ≡ next_line self.line byte }
        ensures column { result.column ≡ next_column self.column byte }
    {
        match byte {
            b'\n' => Place {
                line: self.line + 1,
                column: 1,
            },
            b'\t' => Place {
                line: self.line,
                column: (self.column + 7) / 8 * 8 + 1,
            },
            128..=191 => self,
            _ => Place {
                line: self.line,
                column: self.column + 1,
            },
        }
    }
}

/// The place of byte number `at` of a source, counted from 0, or of the source's end.
///
/// Lines end with LF. A tab moves to the next of the columns 1, 9, 17 and so on; a byte from 128 to 191, which
/// goes on with a character, moves none; every other byte moves one.
pub fn place_of(bytes: &[u8], at: usize) -> Place
    requires within { at ≤ length bytes.now }
    requires short { length bytes.now ≤ 262144 }
    ensures { result ≡ place_after (take at bytes.now) }
{
    let mut place = Place::START;
    for byte in &bytes[..at] {
        place = place.after(*byte);
    }
    place
}
