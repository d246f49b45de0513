//! Bytes of a number that do not count.

ghost use Rattle.std.specs.Prelude.{◌≡◌, [], ◌∷◌, MatchOption};
ghost use Rattle.cam_numbers.specs.Blanks.{passes, without_blanks};

/// What is made of line ends, spaces and tabs among the bytes of a number.
#[derive(Clone, Copy, PartialEq, Eq)]
pub enum Blanks {
    /// They are no digits: what holds one is no number.
    Refused,
    /// They are passed over.
    Skipped,
}

impl Blanks {
    /// Whether the byte is passed over.
    pub(crate) fn passes(self, byte: u8) -> bool
        ensures { result ≡ passes self byte }
    {
        match self {
            Blanks::Refused => false,
            // Nearly every byte is greater than a space, and a comparison tells.
            Blanks::Skipped => byte <= b' ' && matches!(byte, b'\r' | b'\n' | b' ' | b'\t'),
        }
    }
}

/// The first byte that counts, and what stands behind it.
pub(crate) fn first_kept(run: &[u8], blanks: Blanks) -> Option<(u8, &[u8])>
    ensures { MatchOption result
        (without_blanks blanks run.now ≡ [])
        (λ first. without_blanks blanks run.now ≡ first.0 ∷ without_blanks blanks first.1.now) }
{
    for (place, byte) in run.iter().enumerate() {
        if !blanks.passes(*byte) {
            return Some((*byte, &run[place + 1..]));
        }
    }
    None
}
