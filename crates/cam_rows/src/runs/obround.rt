//! Runs of obrounds.

ghost use Rattle.std.specs.Prelude.{◌≡◌, ◌↔◌, ◌<◌, ◌≤◌, ℕ, length};
ghost use Rattle.cam_shapes.specs.Box.{IsInObround, IsSoundObround};
ghost use Rattle.cam_rows.specs.Rows.{centre_at};
ghost use Rattle.cam_rows.specs.Runs.{AreRuns, AreWideRows, IsInRun, IsWideRow};

use super::Run;
use crate::centres::Centres;
use crate::obround::reach_at;
use cam_shapes::Obround;

/// The runs of an obround in wide rows, one below another from the top one: the columns in it or on its edge, none where
/// a side is 0. A run goes from its first column on and before its end; the sides are in nanometres, the centres in half
/// nanometres, up to 32,768 of them in a row.
#[tactic(auto, using(crate::proofs::WideRows::no_run))]
pub fn obround_runs(obround: &Obround, top: &Centres, firsts: &mut [u32], ends: &mut [u32])
    requires obround { IsSoundObround obround.now }
    requires rows { AreWideRows top.now (length firsts.old) }
    requires ends { length ends.old ≡ length firsts.old }
    ensures { AreRuns firsts.new ends.new top.now (λ s. IsInObround s obround.now) }
{
    for k in 0..firsts.len() {
        let run = obround_run(obround, &top.wide_below(k));
        firsts[k] = run.first;
        ends[k] = run.end;
    }
}

/// The run of an obround in a row: by a root, where the row passes its round ends.
fn obround_run(obround: &Obround, row: &Centres) -> Run
    requires obround { IsSoundObround obround.now }
    requires row { IsWideRow row.now }
    ensures each { (i : ℕ) → i < row.now.n
        → IsInRun result.first result.end i ↔ IsInObround (centre_at row.now i) obround.now }
    ensures within { result.end ≤ row.now.n }
{
    let Obround {
        centre,
        width,
        height,
    } = *obround;
    let over = (row.y - 2 * centre.y).unsigned_abs();
    if width.0 == 0 || height.0 == 0 {
        return Run { first: 0, end: 0 };
    }
    if over > height.0 as u64 {
        return Run { first: 0, end: 0 };
    }
    let reach = reach_at(over, width.0 as u64, height.0 as u64) as i64;
    row.columns_between(2 * centre.x - reach, 2 * centre.x + reach)
}
