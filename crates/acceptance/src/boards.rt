//! Files that the scripts find, and pictures that they leave.

use crate::files::MemoryFiles;
use cam_station::Files;
use std::alloc::Global;
use std::test::Fail;

/// A path, and the bytes that it holds.
pub type File = (&'static str, &'static [u8]);

/// One flash of a disc of 1 mm at the origin.
pub const DISC: &[u8] = b"%FSLAX36Y36*%\n%MOMM*%\n%ADD10C,1*%\nD10*\nX0Y0D03*\nM02*\n";

/// The disc without its last line.
pub const CUT_SHORT: &[u8] = b"%FSLAX36Y36*%\n%MOMM*%\n%ADD10C,1*%\nD10*\nX0Y0D03*\n";

/// A layer without items.
pub const EMPTY: &[u8] = b"%FSLAX36Y36*%\n%MOMM*%\nM02*\n";

/// A hole of 0.8 mm at (1 mm, 1 mm), and a slot of 1 mm from (3 mm, 1 mm) over (5 mm, 1 mm) to
/// (5 mm, 3 mm).
pub const HOLE_AND_SLOT: &[u8] =
    b"M48\n; DRILL file\nFMAT,2\nMETRIC\nT1C0.800\nT2C1.000\n%\nG90\nG05\n\
T1\nX1.0Y1.0\nT2\nG00X3.0Y1.0\nM15\nG01X5.0Y1.0\nG01X5.0Y3.0\nM16\nG05\nT0\nM30";

/// The picture of one pixel that is black.
pub const BLACK: &[u8] = b"P4\n1 1\n\x80";

/// The picture of one pixel that is white.
pub const WHITE: &[u8] = b"P4\n1 1\n\x00";

/// Files in memory that hold these.
pub fn held(alloc: Global, found: &[File]) -> Result<MemoryFiles, Fail> {
    let mut files = MemoryFiles::new(alloc);
    for &(path, bytes) in found {
        files.put(path, bytes)?;
    }
    Ok(files)
}
