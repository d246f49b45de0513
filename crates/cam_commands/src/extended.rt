//! Extended commands.

ghost use Rattle.std.specs.Prelude.{◌≡◌, option_map, Some};
ghost use Rattle.std.specs.Option.{option_copied};
ghost use Rattle.cam_words.specs.Heads.{packed};
ghost use Rattle.cam_numbers.specs.Numbers.{decimal};
ghost use Rattle.cam_commands.specs.Numbers.{count};
ghost use Rattle.cam_commands.specs.WordCommands.{slot};
ghost use Rattle.cam_commands.specs.ExtendedCommands.{is_format_digit, format_of, format_of_axes, format_command};
ghost use Rattle.cam_commands.specs.ExtendedCommands.{unit_command, polarity_command, mirror_command};
ghost use Rattle.cam_commands.specs.ExtendedCommands.{rotation_command, scale_command, block_command, repeat_command};
ghost use Rattle.cam_commands.specs.Borrowed.{shown};

use crate::command::Command;
use crate::field::{is_run, read_field};
use crate::numbers::count;
use crate::parts::{Format, Mirror, Polarity, Repeat, Slot, Style};
use crate::text::{is_empty, is_text};
use cam_numbers::{Blanks, decimal, defined_number};
use cam_units::Unit;
use cam_words::{behind_head, first_kept};

fn is_format_digit(byte: u8) -> bool
    ensures { result ≡ is_format_digit byte }
{
    byte >= b'1' && byte <= b'6'
}

/// How many digits stand before and behind the decimal point.
#[tactic(auto, unfolding(crate::specs::ExtendedCommands::format_of))]
fn format_of(run: &[u8]) -> Option<Format>
    ensures { result ≡ format_of (packed run.now) }
{
    let (integers, behind) = first_kept(run)?;
    let (decimals, rest) = first_kept(behind)?;
    if !is_empty(rest) {
        return None;
    }
    if !is_format_digit(integers) || !is_format_digit(decimals) {
        return None;
    }
    Some(Format {
        integers: integers - b'0',
        decimals: decimals - b'0',
    })
}

/// What stands behind `FSLA`.
#[tactic(auto, unfolding(crate::specs::ExtendedCommands::format_of_axes))]
fn format_of_axes(text: &[u8]) -> Command<'static>
    ensures { shown result ≡ format_of_axes (packed text.now) }
{
    let x = read_field(b'X', text);
    let y = read_field(b'Y', x.behind);
    if !is_empty(y.behind) {
        return Command::RefusedFormat;
    }
    let Some(x) = x.run else {
        return Command::RefusedFormat;
    };
    let Some(x) = format_of(x) else {
        return Command::RefusedFormat;
    };
    let Some(y) = y.run else {
        return Command::RefusedFormat;
    };
    let Some(y) = format_of(y) else {
        return Command::RefusedFormat;
    };
    if x != y {
        return Command::RefusedFormat;
    }
    Command::SetFormat(x)
}

/// What stands behind `FS`.
#[tactic(auto, unfolding(crate::specs::ExtendedCommands::format_command))]
pub fn format_command(text: &[u8]) -> Command<'static>
    ensures { shown result ≡ format_command (packed text.now) }
{
    match behind_head(b"LA", text) {
        Some(axes) => format_of_axes(axes),
        None => Command::RefusedFormat,
    }
}

/// What stands behind `MO`.
#[tactic(auto, unfolding(crate::specs::ExtendedCommands::unit_command))]
pub fn unit_command(text: &[u8]) -> Command<'static>
    ensures { shown result ≡ unit_command (packed text.now) }
{
    let unit = if is_text(text, b"MM") {
        Unit::Mm
    } else if is_text(text, b"IN") {
        Unit::Inch
    } else {
        return Command::RefusedFormat;
    };
    Command::SetUnit {
        unit,
        style: Style::Extended,
    }
}

/// What stands behind `LP`.
#[tactic(auto, unfolding(crate::specs::ExtendedCommands::polarity_command))]
pub fn polarity_command(text: &[u8]) -> Command<'static>
    ensures { shown result ≡ polarity_command (packed text.now) }
{
    if is_text(text, b"D") {
        return Command::SetPolarity(Polarity::Dark);
    }
    if is_text(text, b"C") {
        return Command::SetPolarity(Polarity::Clear);
    }
    Command::Unknown
}

/// What stands behind `LM`.
#[tactic(auto, unfolding(crate::specs::ExtendedCommands::mirror_command))]
pub fn mirror_command(text: &[u8]) -> Command<'static>
    ensures { shown result ≡ mirror_command (packed text.now) }
{
    if is_text(text, b"N") {
        return Command::SetMirror(Mirror::Neither);
    }
    if is_text(text, b"X") {
        return Command::SetMirror(Mirror::X);
    }
    if is_text(text, b"Y") {
        return Command::SetMirror(Mirror::Y);
    }
    if is_text(text, b"XY") {
        return Command::SetMirror(Mirror::Both);
    }
    Command::Unknown
}

/// What stands behind `LR`.
#[tactic(auto, unfolding(crate::specs::ExtendedCommands::rotation_command))]
pub fn rotation_command(text: &[u8]) -> Command<'static>
    ensures { shown result ≡ rotation_command (packed text.now) }
{
    if !is_run(text) {
        return Command::Unknown;
    }
    Command::SetRotation(decimal(text, Blanks::Skipped))
}

/// What stands behind `LS`.
#[tactic(auto, unfolding(crate::specs::ExtendedCommands::scale_command))]
pub fn scale_command(text: &[u8]) -> Command<'static>
    ensures { shown result ≡ scale_command (packed text.now) }
{
    if !is_run(text) {
        return Command::Unknown;
    }
    Command::SetScale(decimal(text, Blanks::Skipped))
}

/// What stands behind `AB`.
#[tactic(auto, unfolding(crate::specs::ExtendedCommands::block_command))]
pub fn block_command(text: &[u8]) -> Command<'static>
    ensures { shown result ≡ block_command (packed text.now) }
{
    if is_empty(text) {
        return Command::CloseBlock;
    }
    let d = read_field(b'D', text);
    if !is_empty(d.behind) {
        return Command::Unknown;
    }
    let Some(run) = d.run else {
        return Command::Unknown;
    };
    Command::OpenBlock(defined_number(run, Blanks::Skipped))
}

/// A count of columns or rows.
fn copies(run: Option<&[u8]>) -> Slot<u32>
    ensures { result ≡ slot count (option_map packed (option_copied run.entry)) }
{
    match run {
        None => Slot::Omitted,
        Some(run) => match count(run) {
            None => Slot::Malformed,
            Some(n) => Slot::Written(n),
        },
    }
}

/// A step between columns or rows.
fn step(run: Option<&[u8]>) -> Slot<i64>
    ensures { result ≡ slot decimal (option_map packed (option_copied run.entry)) }
{
    match run {
        None => Slot::Omitted,
        Some(run) => match decimal(run, Blanks::Skipped) {
            None => Slot::Malformed,
            Some(n) => Slot::Written(n),
        },
    }
}

/// What stands behind `SR`.
#[tactic(auto, unfolding(crate::specs::ExtendedCommands::repeat_command))]
pub fn repeat_command(text: &[u8]) -> Command<'static>
    ensures { shown result ≡ repeat_command (packed text.now) }
{
    if is_empty(text) {
        return Command::CloseRepeat;
    }
    let x = read_field(b'X', text);
    let y = read_field(b'Y', x.behind);
    let i = read_field(b'I', y.behind);
    let j = read_field(b'J', i.behind);
    if !is_empty(j.behind) {
        return Command::Unknown;
    }
    Command::SetRepeat(Repeat {
        columns: copies(x.run),
        rows: copies(y.run),
        i: step(i.run),
        j: step(j.run),
    })
}
