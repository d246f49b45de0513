//! Runs of digits, signs and points.

ghost use Rattle.std.specs.Prelude.{◌≡◌, ◌≤◌, length};
ghost use Rattle.std.specs.List.{prefix_len};
ghost use Rattle.cam_numbers.specs.Numbers.{is_numeric};

/// Whether a number may hold the byte: a digit, a sign or a point.
#[tactic(auto, unfolding(crate::specs::Numbers::is_numeric))]
pub fn is_numeric(byte: u8) -> bool
    ensures { result ≡ is_numeric byte }
{
    byte.is_ascii_digit() || matches!(byte, b'+' | b'-' | b'.')
}

/// How many digits, signs and points the text begins with.
pub fn run_len(text: &[u8]) -> usize
    ensures value { result ≡ prefix_len is_numeric text.now }
    ensures within { result ≤ length text.now }
{
    text.iter().take_while(|byte| is_numeric(**byte)).count()
}
