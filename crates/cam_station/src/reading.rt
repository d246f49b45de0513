//! Reads files of each kind.

ghost use Rattle.std.specs.Prelude.{◌≡◌, IfOk};
ghost use Rattle.cam_edits.specs.Sheets.{IsSound, content_of};
ghost use Rattle.cam_station.specs.Machine.{memory_of, reader_answer};
ghost use Rattle.cam_station.specs.Meanings.{meaning_of};
ghost use Rattle.cam_station.specs.Machinery.Answers.{answer_of};

use crate::fault::Fault;
use cam_edits::{IndexedDrillLayer, IndexedLayer, SheetContent};
use cam_gerber::read_gerber;
use cam_script::{Bytes, FileKind};
use cam_xnc::read_xnc;
use std::alloc::Global;

/// The layer of a file of this kind, which is sound, or its first fault; want of memory is
/// number 30 at place 0. The layer has the cells that its items reach, where there is memory for them.
#[tactic(auto, using(crate::proofs::Loading::answers))]
pub(crate) fn read(alloc: Global, kind: FileKind, file: &Bytes) -> Result<SheetContent, Fault>
    ensures reads { reader_answer (memory_of result) (meaning_of kind file.now) ≡ answer_of result }
    ensures sound { IfOk result (λ layer. IsSound (content_of layer)) }
{
    match kind {
        FileKind::Gerber => {
            let layer = read_gerber(alloc, file.as_slice())?;
            Ok(SheetContent::Gerber(IndexedLayer::new(alloc, layer)))
        }
        FileKind::Drill => {
            let layer = read_xnc(alloc, file.as_slice())?;
            Ok(SheetContent::Drill(IndexedDrillLayer::new(alloc, layer)))
        }
    }
}
