//! What a word says.

ghost use Rattle.std.specs.Prelude.{◌≡◌, ◌&&◌, not};
ghost use Rattle.std.specs.List.{list_any};
ghost use Rattle.cam_words.specs.Bytes.{is_star};
ghost use Rattle.cam_commands.specs.ExtendedCommands.{may_hold_star, named_command, extended_command};
ghost use Rattle.cam_commands.specs.Syntax.{command_of, start_of};
ghost use Rattle.cam_commands.specs.Borrowed.{shown, found};

use crate::command::Command;
use crate::extended::{
    block_command, format_command, mirror_command, polarity_command, repeat_command,
    rotation_command, scale_command, unit_command,
};
use crate::names::{Name, name_of};
use crate::old_forms::is_neutral;
use crate::parts::Style;
use crate::text::holds_star;
use crate::words::word_command;
use cam_words::{Kind, Word, first_kept};

/// An extended command by its name and what stands behind the two letters.
#[tactic(auto, unfolding(crate::specs::ExtendedCommands::named_command))]
fn named_command<'a>(name: Name, text: &'a [u8]) -> Command<'a>
    ensures { shown result ≡ named_command name text.now }
{
    match name {
        Name::FormatSpecification => format_command(text),
        Name::UnitMode => unit_command(text),
        Name::ApertureDefinition => Command::DefineAperture(text),
        Name::ApertureMacro => Command::DefineMacro(text),
        Name::ApertureBlock => block_command(text),
        Name::StepAndRepeat => repeat_command(text),
        Name::LoadPolarity => polarity_command(text),
        Name::LoadMirroring => mirror_command(text),
        Name::LoadRotation => rotation_command(text),
        Name::LoadScaling => scale_command(text),
        Name::Free(name) => Command::KeepText { name, text },
        Name::Old(form) => {
            if is_neutral(form, text) {
                Command::NeutralOld
            } else {
                Command::RefusedOld(Style::Extended)
            }
        }
    }
}

/// Only a macro's text holds a `*`.
fn may_hold_star(name: Name) -> bool
    ensures { result ≡ may_hold_star name }
{
    matches!(name, Name::ApertureMacro)
}

/// Whether the text is several commands in one pair of `%`.
fn holds_bad_star(name: Name, text: &[u8]) -> bool
    ensures { result ≡ (list_any is_star text.now && not (may_hold_star name)) }
{
    if may_hold_star(name) {
        return false;
    }
    holds_star(text)
}

/// What an extended command says.
fn extended_command(text: &[u8]) -> Command<'_>
    ensures { shown result ≡ extended_command text.now }
{
    let Some((first, behind)) = first_kept(text) else {
        return Command::Unknown;
    };
    let Some((second, rest)) = first_kept(behind) else {
        return Command::Unknown;
    };
    let Some(name) = name_of(first, second) else {
        return Command::Unknown;
    };
    if holds_bad_star(name, rest) {
        return Command::Unknown;
    }
    named_command(name, rest)
}

/// What a word says. The command borrows its texts from the word's.
#[tactic(auto, unfolding(crate::specs::Syntax::command_of))]
pub fn command_of(word: Word<'_>) -> Command<'_>
    ensures { shown result ≡ command_of (found word.entry) }
{
    match word.kind {
        Kind::Plain => word_command(word.text),
        Kind::Comment => Command::Nothing,
        Kind::Extended => extended_command(word.text),
    }
}

/// The place of the first byte of the command, of an extended one its `%`.
pub fn start_of(word: Word<'_>) -> usize
    ensures { result ≡ start_of (found word.entry) }
{
    match word.kind {
        Kind::Plain | Kind::Comment => word.at,
        // Its text begins behind the `%`.
        Kind::Extended => word.at.saturating_sub(1),
    }
}
