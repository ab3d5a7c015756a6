//! A place in a message: in a string or not, and how deep.
ghost use Rattle.std.specs.Prelude.{◌≡◌, ◌≤◌, ◌++◌, ◌∷◌, ℕ, List, []};
ghost use Rattle.ovs_wire.specs.Limits.{most_nesting};
ghost use Rattle.ovs_wire.specs.ScanPosition.{place_after};

/// What the bytes of a message before a place say about it: whether it lies in a string, there right after a
/// backslash that escapes, and how many objects and arrays are open.
#[derive(Clone, Copy, Debug)]
pub(crate) struct ScanPosition {
    pub quoted: bool,
    pub escaped: bool,
    pub depth: u32,
}

impl ScanPosition {
    /// The place before the first byte of a message.
    pub(crate) fn start() -> ScanPosition
        ensures value { result ≡ place_after [] }
    {
        ScanPosition {
            quoted: false,
            escaped: false,
            depth: 0,
        }
    }

    /// The place after one more byte.
    pub(crate) fn past(self, byte: u8) -> ScanPosition
        requires { self.depth ≤ most_nesting }
        ensures value { (before : List ℕ) → self ≡ place_after before → result ≡ place_after (before ++ byte ∷ []) }
    {
        let ScanPosition {
            quoted,
            escaped,
            depth,
        } = self;
        if quoted {
            return ScanPosition {
                quoted: escaped || byte != b'"',
                escaped: !escaped && byte == b'\\',
                depth,
            };
        }
        let depth = match byte {
            b'{' | b'[' => depth + 1,
            b'}' | b']' => depth.saturating_sub(1),
            _ => depth,
        };
        ScanPosition {
            quoted: byte == b'"',
            escaped: false,
            depth,
        }
    }
}
