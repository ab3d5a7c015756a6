//! What came by a read.
ghost use Rattle.std.specs.Prelude.{◌≡◌};
ghost use Rattle.ovs_session.specs.Moving.{is_end};

/// What came by a read.
#[derive(Debug, Clone, Copy, PartialEq, Eq)]
pub(crate) enum ReadOutcome {
    /// As many bytes as it asked for.
    Whole,
    /// Fewer bytes.
    Part,
    /// Nothing for now.
    Nothing,
    /// Nothing, since it was interrupted.
    Interrupted,
    /// The reader's end.
    End,
}

impl ReadOutcome {
    /// Whether the reader is at its end.
    pub(crate) fn is_end(self) -> bool
        ensures value { result ≡ is_end self }
    {
        matches!(self, ReadOutcome::End)
    }
}
