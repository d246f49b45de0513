//! How words of inks are decided: those of marks, and the columns of runs.

ghost use Rattle.std.specs.Prelude.{◌≡◌, ◌+◌, ◌-◌, ◌*◌, ◌/◌, ◌<◌, ◌≤◌, ℕ, Bool, length, slice_index};
ghost use Rattle.std.specs.Option.{option_or};
ghost use Rattle.cam_tiles.specs.Machinery.Marks.{is_set};
ghost use Rattle.cam_tiles.specs.Machinery.Inks.{AreNext, IsInk, Takes, given, in_body, in_box, in_row, in_runs, ink_of, words_of};

use crate::masks::figure_runs::FigureRuns;
use crate::masks::runs::Runs;
use crate::span::Span;

/// Gives a polarity to the bits of words that are not decided yet.
pub(super) fn take_words(decided: &mut [u64], dark: &mut [u64], bits: &[u64], ink: bool)
    requires dark { length dark.old ≡ length decided.old }
    requires bits { length bits.now ≡ length decided.old }
    ensures decided { length decided.new ≡ length decided.old }
    ensures dark { length dark.new ≡ length decided.old }
    ensures each { (k i : ℕ) → k < length decided.old → i < 64
        → ink_of (slice_index decided.new k) (slice_index dark.new k) i
        ≡ option_or (ink_of (slice_index decided.old k) (slice_index dark.old k) i)
        (given (is_set (slice_index bits.now k) i) ink) }
{
    let ink = ink_word(ink);
    for k in 0..decided.len() {
        take_word(&mut decided[k], &mut dark[k], bits[k], ink);
    }
}

/// Gives a polarity to what is not decided of the columns that are in runs, in so many tiles as there are numbers of tiles
/// before which all are known to be decided.
#[inline]
pub(super) fn take_rows(decided: &mut [u64], dark: &mut [u64], next: &[u32], runs: &Runs, ink: bool)
    requires few { length next.now ≤ 512 }
    requires decided { 64 * length next.now ≤ length decided.old }
    requires dark { 64 * length next.now ≤ length dark.old }
    requires rows { runs.now.band.end ≤ 64 }
    requires known { AreNext (length next.now) next.now decided.old }
    ensures { Takes 0 (length next.now) (in_runs runs.now) ink (words_of (length next.now) decided.old dark.old)
        (words_of (length next.now) decided.new dark.new) }
{
    let Span { first, end } = runs.band;
    if end <= first {
        return;
    }
    if runs.are_box() {
        take_box(decided, dark, next, runs.band, runs.columns(first), ink);
        return;
    }
    for row in first..end {
        let k = row as usize;
        let columns = Span {
            first: runs.firsts[k],
            end: runs.ends[k],
        };
        take_run(decided, dark, next, row, columns, ink);
    }
}

/// Gives a polarity to what is not decided of a box, which has the same columns in all of its rows: tile after tile,
/// whose words of these rows stand side by side.
fn take_box(
    decided: &mut [u64],
    dark: &mut [u64],
    next: &[u32],
    rows: Span,
    columns: Span,
    ink: bool,
)
    requires few { length next.now ≤ 512 }
    requires decided { 64 * length next.now ≤ length decided.old }
    requires dark { 64 * length next.now ≤ length dark.old }
    requires rows { rows.end ≤ 64 }
    requires known { AreNext (length next.now) next.now decided.old }
    ensures { Takes 0 (length next.now) (in_box rows columns.first columns.end) ink
        (words_of (length next.now) decided.old dark.old) (words_of (length next.now) decided.new dark.new) }
{
    let end = columns.end.min(64 * next.len() as u32);
    if end <= columns.first {
        return;
    }
    let ink = ink_word(ink);
    let mut tile = columns.first / 64;
    while 64 * tile < end {
        let open = next[tile as usize];
        if open > tile {
            tile = open;
        } else {
            let part = Span {
                first: columns.first.max(64 * tile) - 64 * tile,
                end: end.min(64 * tile + 64) - 64 * tile,
            };
            take_part_of_rows(decided, dark, rows, tile, part, ink);
            tile += 1;
        }
    }
}

/// Gives a polarity to what is not decided of the part of a box that lies in one tile; columns are counted from the
/// left of the tile.
fn take_part_of_rows(
    decided: &mut [u64],
    dark: &mut [u64],
    rows: Span,
    tile: u32,
    columns: Span,
    ink: u64,
)
    requires some { columns.first < columns.end }
    requires end { columns.end ≤ 64 }
    requires rows { rows.end ≤ 64 }
    requires few { tile < 512 }
    requires decided { 64 * tile + 64 ≤ length decided.old }
    requires dark { 64 * tile + 64 ≤ length dark.old }
    ensures { (tiles : ℕ) (polarity : Bool) → IsInk polarity ink
        → Takes 0 tiles (in_box rows (64 * tile + columns.first) (64 * tile + columns.end)) polarity
        (words_of tiles decided.old dark.old) (words_of tiles decided.new dark.new) }
{
    for row in rows.first..rows.end {
        take_part(decided, dark, row, tile, columns, ink);
    }
}

/// Gives a polarity to what is not decided of a figure's body, without what is taken out of the body.
#[inline]
pub(super) fn take_pieces(
    decided: &mut [u64],
    dark: &mut [u64],
    next: &[u32],
    runs: &FigureRuns,
    ink: bool,
)
    requires few { length next.now ≤ 512 }
    requires decided { 64 * length next.now ≤ length decided.old }
    requires dark { 64 * length next.now ≤ length dark.old }
    requires rows { runs.now.body.band.end ≤ 64 }
    requires known { AreNext (length next.now) next.now decided.old }
    ensures { Takes 0 (length next.now) (in_body runs.now) ink (words_of (length next.now) decided.old dark.old)
        (words_of (length next.now) decided.new dark.new) }
{
    for row in runs.body.band.first..runs.body.band.end {
        let ((a, b), (c, d)) = runs.pieces(row);
        take_run(decided, dark, next, row, a, ink);
        take_run(decided, dark, next, row, b, ink);
        take_run(decided, dark, next, row, c, ink);
        take_run(decided, dark, next, row, d, ink);
    }
}

/// Gives a polarity to what is not decided of the run of one row, which mostly lies in one tile.
#[inline]
fn take_run(decided: &mut [u64], dark: &mut [u64], next: &[u32], row: u32, columns: Span, ink: bool)
    requires few { length next.now ≤ 512 }
    requires decided { 64 * length next.now ≤ length decided.old }
    requires dark { 64 * length next.now ≤ length dark.old }
    requires row { row < 64 }
    requires known { AreNext (length next.now) next.now decided.old }
    ensures { Takes 0 (length next.now) (in_row row columns.first columns.end) ink (words_of (length next.now) decided.old dark.old)
        (words_of (length next.now) decided.new dark.new) }
{
    let first = columns.first;
    let end = columns.end.min(64 * next.len() as u32);
    if end <= first {
        return;
    }
    let ink = ink_word(ink);
    if first / 64 == (end - 1) / 64 {
        let part = Span {
            first: first % 64,
            end: (end - 1) % 64 + 1,
        };
        take_part(decided, dark, row, first / 64, part, ink);
    } else {
        take_long(decided, dark, next, row, Span { first, end }, ink);
    }
}

/// Gives a polarity to what is not decided of a run that lies in several tiles: a part of the first and of the last
/// one, and all of those between.
#[inline(never)]
fn take_long(decided: &mut [u64], dark: &mut [u64], next: &[u32], row: u32, columns: Span, ink: u64)
    requires few { length next.now ≤ 512 }
    requires some { 0 < columns.end }
    requires several { columns.first / 64 < (columns.end - 1) / 64 }
    requires within { columns.end ≤ 64 * length next.now }
    requires decided { 64 * length next.now ≤ length decided.old }
    requires dark { 64 * length next.now ≤ length dark.old }
    requires row { row < 64 }
    requires known { AreNext (length next.now) next.now decided.old }
    ensures { (polarity : Bool) → IsInk polarity ink → Takes 0 (length next.now) (in_row row columns.first columns.end) polarity
        (words_of (length next.now) decided.old dark.old) (words_of (length next.now) decided.new dark.new) }
{
    let Span { first, end } = columns;
    let (from, last) = (first / 64, (end - 1) / 64);
    let between = Span {
        first: from + 1,
        end: last,
    };
    let head = Span {
        first: first % 64,
        end: 64,
    };
    let tail = Span {
        first: 0,
        end: (end - 1) % 64 + 1,
    };
    take_whole(decided, dark, next, row, between, ink);
    take_part(decided, dark, row, from, head, ink);
    take_part(decided, dark, row, last, tail, ink);
}

/// Gives a polarity to what is not decided of a row in whole tiles, from one on and before another. Tiles that are known
/// to be decided are passed over.
fn take_whole(decided: &mut [u64], dark: &mut [u64], next: &[u32], row: u32, tiles: Span, ink: u64)
    requires order { tiles.first ≤ tiles.end }
    requires end { tiles.end ≤ length next.now }
    requires few { length next.now ≤ 512 }
    requires decided { 64 * length next.now ≤ length decided.old }
    requires dark { 64 * length next.now ≤ length dark.old }
    requires row { row < 64 }
    requires known { AreNext (length next.now) next.now decided.old }
    ensures { (polarity : Bool) → IsInk polarity ink → Takes 0 (length next.now) (in_row row (64 * tiles.first) (64 * tiles.end)) polarity
        (words_of (length next.now) decided.old dark.old) (words_of (length next.now) decided.new dark.new) }
{
    let Span { first, end } = tiles;
    let mut tile = first;
    while tile < end {
        let open = next[tile as usize];
        if open > tile {
            tile = open.min(end);
        } else {
            take_part(decided, dark, row, tile, Span::WHOLE, ink);
            tile += 1;
        }
    }
}

/// Gives a polarity to what is not decided of a row of a tile, in columns that are counted from its left.
#[inline]
fn take_part(decided: &mut [u64], dark: &mut [u64], row: u32, tile: u32, columns: Span, ink: u64)
    requires some { columns.first < columns.end }
    requires end { columns.end ≤ 64 }
    requires row { row < 64 }
    requires few { tile < 512 }
    requires decided { 64 * tile + 64 ≤ length decided.old }
    requires dark { 64 * tile + 64 ≤ length dark.old }
    ensures { (tiles : ℕ) (polarity : Bool) → IsInk polarity ink
        → Takes 0 tiles (in_row row (64 * tile + columns.first) (64 * tile + columns.end)) polarity
        (words_of tiles decided.old dark.old) (words_of tiles decided.new dark.new) }
{
    let bits = columns.bits();
    let k = (64 * tile + row) as usize;
    take_word(&mut decided[k], &mut dark[k], bits, ink);
}

/// A polarity in all bits of a word.
fn ink_word(dark: bool) -> u64
    ensures { IsInk dark result }
{
    if dark { u64::MAX } else { 0 }
}

/// Decides the bits of a word that are not decided yet; they are dark where the ink has them too.
#[inline]
fn take_word(decided: &mut u64, dark: &mut u64, bits: u64, ink: u64)
    ensures { (i : ℕ) → i < 64 → ink_of decided.new dark.new i
        ≡ option_or (ink_of decided.old dark.old i) (given (is_set bits i) (is_set ink i)) }
{
    let was = *decided;
    let new = bits & !was;
    *decided = was | new;
    *dark = (*dark & !new) | (new & ink);
}
