//! The command at the front of a text.

ghost use Rattle.std.specs.Prelude.{◌≡◌, ◌+◌, List, ℕ, length, IfOk, IfSome};
ghost use Rattle.std.specs.Option.{option_map};
ghost use Rattle.std.specs.List.{before_first, list_any};
ghost use Rattle.cam_words.specs.Bytes.{is_star};
ghost use Rattle.cam_words.specs.Heads.{is_comment as is_comment_text, is_forbidden_in_word, is_forbidden_in_extended};
ghost use Rattle.cam_words.specs.Reading.{word_at, command_within, extended_at};
ghost use Rattle.cam_words.specs.Machinery.Shown.{seen, shown, front_shown, IsInside};

use crate::bytes::{
    holds_control, holds_forbidden_in_code, holds_forbidden_in_plain, len_before, ordinary_len,
    trailing_skipped,
};
use crate::heads::{is_comment, is_free_text};
use crate::word::Kind;
use cam_refusals::Refusal;

/// A command at the front of a text.
#[derive(Clone, Copy)]
pub struct Command<'a> {
    pub kind: Kind,
    pub text: &'a [u8],
    /// How many bytes stand before `text`.
    pub before: usize,
    /// How many bytes the command has, its delimiters among them.
    pub len: usize,
}

/// Whether a part of a word, a comment or none, holds a byte that the word may not hold.
fn holds_forbidden_in_word(part: &[u8], is_comment: bool) -> bool
    ensures { (word : List ℕ) → is_comment ≡ is_comment_text word
        → result ≡ list_any (is_forbidden_in_word word) part.now }
{
    if is_comment {
        return holds_control(part);
    }
    holds_forbidden_in_plain(part)
}

fn holds_forbidden_in_extended(text: &[u8]) -> bool
    ensures { result ≡ list_any (is_forbidden_in_extended text.now) text.now }
{
    if is_free_text(text) {
        return holds_control(text);
    }
    holds_forbidden_in_code(text)
}

/// What stands before the first `*` of a text.
#[derive(Clone, Copy)]
struct FrontWord<'a> {
    text: &'a [u8],
    is_comment: bool,
    /// Whether it holds a byte that it may not hold.
    is_bad: bool,
}

fn front_word(text: &[u8]) -> FrontWord<'_>
    ensures text { result.text.now ≡ before_first is_star text.now }
    ensures comment { result.is_comment ≡ is_comment_text result.text.now }
    ensures bad { result.is_bad ≡ list_any (is_forbidden_in_word result.text.now) result.text.now }
{
    let ordinary = ordinary_len(text);
    let rest = &text[ordinary..];
    let others = &rest[..len_before(b'*', rest)];
    let word = &text[..ordinary + others.len()];
    let comment = is_comment(word);
    FrontWord {
        text: word,
        is_comment: comment,
        is_bad: holds_forbidden_in_word(others, comment),
    }
}

/// The word that the text begins with, or its fault.
fn word(text: &[u8]) -> Result<Command<'_>, Refusal>
    ensures value { seen result ≡ shown (word_at text.now) }
    ensures inside { IfOk result (IsInside (length text.now)) }
{
    let front = front_word(text);
    if front.is_bad {
        return Err(Refusal::BadByte);
    }
    let len = front.text.len();
    if len == text.len() {
        return Err(Refusal::Unterminated);
    }
    let kind = if front.is_comment {
        Kind::Comment
    } else {
        Kind::Plain
    };
    Ok(Command {
        kind,
        text: front.text,
        before: 0,
        len: len + 1,
    })
}

/// The extended command whose two `%` stand round these bytes, or its fault.
fn command_within(inside: &[u8]) -> Result<Command<'_>, Refusal>
    ensures value { seen result ≡ shown (command_within inside.now) }
    ensures inside { IfOk result (IsInside (length inside.now + 2)) }
{
    let len = inside.len() - trailing_skipped(inside);
    if len == 0 || inside[len - 1] != b'*' {
        return Err(Refusal::Unterminated);
    }
    Ok(Command {
        kind: Kind::Extended,
        text: &inside[..len - 1],
        before: 1,
        len: inside.len() + 2,
    })
}

/// The extended command whose first `%` stands before the text, or its fault.
fn extended(text: &[u8]) -> Result<Command<'_>, Refusal>
    ensures value { seen result ≡ shown (extended_at text.now) }
    ensures inside { IfOk result (IsInside (length text.now + 1)) }
{
    let len = len_before(b'%', text);
    let inside = &text[..len];
    if holds_forbidden_in_extended(inside) {
        return Err(Refusal::BadByte);
    }
    if len == text.len() {
        return Err(Refusal::Unterminated);
    }
    command_within(inside)
}

/// The command that the text begins with, or its fault; nothing of an empty text.
pub fn front(text: &[u8]) -> Option<Result<Command<'_>, Refusal>>
    ensures value { option_map seen result ≡ front_shown text.now }
    ensures inside { IfSome result (λ found. IfOk found (IsInside (length text.now))) }
{
    match text {
        [] => None,
        [b'%', rest @ ..] => Some(extended(rest)),
        [_, ..] => Some(word(text)),
    }
}
