//! Columns of tiles side by side, joined in their words: each tile has 64 words, one for each of its rows from the top,
//! and its columns are their bits.

ghost use Rattle.std.specs.Prelude.{◌≡◌, ◌<◌, ◌≤◌, IsTrue, length};
ghost use Rattle.cam_tiles.specs.Machinery.Marks.{is_marked};
ghost use Rattle.cam_rows.specs.Runs.{IsInRun};
ghost use Rattle.cam_tiles.specs.Machinery.Runs.{HasColumn};
ghost use Rattle.cam_tiles.specs.Machinery.Turning.{AreWide};
ghost use Rattle.cam_tiles.specs.Machinery.Words.{JoinsColumns};

use crate::masks::join::Join;
use crate::masks::runs::Runs;
use crate::span::Span;

/// Joins the columns with runs, row after row.
pub(crate) fn join_wide(words: &mut [u64], columns: u32, runs: &Runs, how: Join)
    requires wide { AreWide columns words.old }
    requires rows { runs.now.band.end ≤ 64 }
    ensures { JoinsColumns columns how (HasColumn runs.now) words.old words.new }
{
    for row in runs.band.first..runs.band.end {
        let first = runs.firsts[row as usize];
        let end = runs.ends[row as usize].min(columns);
        if first < end {
            join_run(words, row, first, end, how);
        }
    }
}

/// Joins the columns of a row from a first one on and before an end: those of a tile at once.
#[inline]
fn join_run(words: &mut [u64], row: u32, first: u32, end: u32, how: Join)
    requires row { row < 64 }
    requires some { first < end }
    requires wide { AreWide end words.old }
    ensures { JoinsColumns (length words.old) how (λ r column. (r ≡ row) × IsInRun first end column)
        words.old words.new }
{
    for tile in first / 64..end.div_ceil(64) {
        let left = 64 * tile;
        let run = Span {
            first: first.saturating_sub(left),
            end: (end - left).min(64),
        };
        let word = (left + row) as usize;
        words[word] = how.join_row(words[word], run.bits());
    }
}

/// Joins the columns with those of other words, each with the one of its place.
pub(crate) fn join_words(words: &mut [u64], others: &[u64], how: Join)
    requires same { length others.now ≡ length words.old }
    requires tiles { AreWide 0 words.old }
    ensures { JoinsColumns (length words.old) how (λ row column. IsTrue (is_marked others.now row column))
        words.old words.new }
{
    for k in 0..words.len() {
        words[k] = how.join_row(words[k], others[k]);
    }
}
