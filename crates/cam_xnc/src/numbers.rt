//! What a file asks of its numbers.

ghost use Rattle.std.specs.Prelude.{◌≡◌};
ghost use Rattle.cam_xnc.specs.Numbers.{is_pointed, is_whole, within_tools, selected_tool, declared_tool};

use cam_numbers::{Blanks, natural};

/// The greatest number of a tool.
const LAST_TOOL: u64 = 9_999;

/// Whether the run holds a point.
pub fn is_pointed(run: &[u8]) -> bool
    ensures { result ≡ is_pointed run.now }
{
    run.iter().any(|byte| *byte == b'.')
}

/// Whether the run is an optional sign and digits, at least one.
pub fn is_whole(run: &[u8]) -> bool
    ensures { result ≡ is_whole run.now }
{
    match run {
        [b'-' | b'+', size @ ..] => natural(size, Blanks::Refused).is_some(),
        _ => natural(run, Blanks::Refused).is_some(),
    }
}

/// The number of a tool, if it is not past the greatest one.
fn within_tools(n: u64) -> Option<u16>
    ensures { result ≡ within_tools n }
{
    if n > LAST_TOOL { None } else { Some(n as u16) }
}

/// The number of a tool that is selected, by value: 0 for none, up to 9,999.
pub fn selected_tool(run: &[u8]) -> Option<u16>
    ensures { result ≡ selected_tool run.now }
{
    within_tools(natural(run, Blanks::Refused)?)
}

/// The number that a tool is declared by: 1 to 9,999, by value.
pub fn declared_tool(run: &[u8]) -> Option<u16>
    ensures { result ≡ declared_tool run.now }
{
    let number = natural(run, Blanks::Refused)?;
    if number == 0 {
        return None;
    }
    within_tools(number)
}
