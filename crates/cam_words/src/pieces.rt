//! The pieces of a text.

ghost use Rattle.std.specs.Prelude.{◌≡◌, ◌<◌, ◌≤◌, ◌==◌, ◌∷◌, [], length, MatchOption};
ghost use Rattle.std.specs.List.{slice_split};
ghost use Rattle.std.specs.Option.{option_copied};
ghost use Rattle.cam_words.specs.Pieces.{pieces_of};

/// What stands before the first such byte, and behind it, if there is one.
pub fn cut(text: &[u8], separator: u8) -> (&[u8], Option<&[u8]>)
    ensures pieces { MatchOption result.1
        (slice_split (λ b. b == separator) text.now ≡ result.0.now ∷ [])
        (λ rest. slice_split (λ b. b == separator) text.now
        ≡ result.0.now ∷ slice_split (λ b. b == separator) rest.now) }
    ensures all { slice_split (λ b. b == separator) text.now ≡ result.0.now ∷ pieces_of separator (option_copied result.1) }
    ensures shorter { MatchOption result.1
        (length result.0.now ≤ length text.now)
        (λ rest. length rest.now < length text.now) }
{
    for (place, byte) in text.iter().enumerate() {
        if *byte == separator {
            return (&text[..place], Some(&text[place + 1..]));
        }
    }
    (text, None)
}
