//! Reads XNC drill files (Ucamco's "XNC Format Specification").
//!
//! [`read_xnc`] gives the drill layer of a file, or its first fault with its number and its place:
//!
//! ```text
//! M48            the header begins
//! METRIC         lengths are in mm
//! T1C0.8         tool 1 is 0.8 mm wide
//! %              the body begins
//! T1             selects tool 1
//! X1.0Y2.5       a hit at (1 mm, 2.5 mm)
//! G00X3.0        to (3 mm, 2.5 mm), the start of a rout
//! M15            lowers the tool
//! G01Y4.0        cuts to (3 mm, 4 mm)
//! M16            raises it
//! G05            coordinates are hits again
//! X5.0G85X8.0    a slot, which is a rout of two points: from (5 mm, 4 mm) to (8 mm, 4 mm)
//! M30            the end
//! ```
//!
//! What a file means stands in `specs/`: `Lines` says how it is cut into lines, `Numbers` and `Syntax` what a line
//! says, `DrillState` what is in force behind the lines so far, `Faults` what a line may be refused for, `Reading`
//! what the whole file gives, and `Laws` what holds of that. `specs/Machinery/` ties the running state of the code
//! to them.
//!
//! ```rust
//! use cam_units::Spot;
//! use cam_xnc::read_xnc;
//!
//! let layer = read_xnc(alloc, b"M48\nMETRIC\nT1C0.8\n%\nT1\nX1.0Y2.5\nM30\n")?;
//! assert!(rt; layer.tools().len() == 1 && layer.items().len() == 1);
//! // places are in half nm: the right edge of the hit of 0.8 mm at (1 mm, 2.5 mm)
//! assert!(rt; layer.black_at(Spot { x: 2_800_000, y: 5_000_000 }));
//! assert!(rt; !layer.black_at(Spot { x: 2_800_001, y: 5_000_000 }));
//! ```
#![tactic(auto)]

mod body;
mod bytes;
mod header;
mod laws;
mod line;
mod lines;
mod modes;
mod numbers;
mod reader;
mod state;
mod statement;
mod syntax;

pub use cam_refusals::ReadFault;
pub use laws::{
    drill_layers_are_sound, drill_layers_come_from_faultless_files, no_drill_fault_of_memory,
    one_cutting_into_lines, slots_are_routs, the_least_drill_fault_is_told,
};
pub use reader::read_xnc;
