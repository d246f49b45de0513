//! Writes layers as canonical texts.
//!
//! [`xnc_text`] writes a drill layer as an XNC drill file (Ucamco's "XNC Format Specification"):
//!
//! ```text
//! M48
//! METRIC
//! T1C0.800000                 tool 1 is 0.8 mm wide
//! %
//! G05
//! T1                          selects tool 1
//! X1.000000Y2.500000          a hit at (1 mm, 2.5 mm)
//! G00X3.000000Y2.500000       a rout from (3 mm, 2.5 mm) ..
//! M15
//! G01X3.000000Y4.000000       .. to (3 mm, 4 mm)
//! M16
//! M30
//! ```
//!
//! [`gerber_text`] writes a layer as a Gerber file (Ucamco's "Gerber Layer Format Specification"):
//!
//! ```text
//! %FSLAX46Y46*%
//! %MOMM*%
//! %TF.Part,Single*%                a file attribute
//! G01*
//! G75*
//! %ADD10C,0.500000*%                aperture 10 is a disc 0.5 mm wide
//! D10*                              selects it
//! X1000000Y0D03*                    a flash at (1 mm, 0)
//! X3000000Y0D01*                    a line from there to (3 mm, 0)
//! G03*                              arcs go counterclockwise
//! X3000000Y2000000I0J1000000D01*    half a circle about (3 mm, 1 mm)
//! %LPC*%                            what follows clears
//! X3000000Y2000000D03*
//! M02*
//! ```
//!
//! A layer has one canonical text, in which each item stands behind the settings in which it differs from those in
//! force. Reading that text gives the layer again: see [`gerber_texts_read_back`] and [`drill_texts_read_back`].
//!
//! The texts are defined in `specs/`: `Lengths` says how lengths are written, `DrillTexts` which lines a drill layer
//! has, how each is spelled and what it says, `Phrases` how each phrase of a Gerber file is spelled and what it says,
//! `GerberTexts` which phrases a layer has, and `Laws` what holds of the texts. `specs/Machinery/` ties the running state
//! of the code to them.
//!
//! ```rust
//! use cam_gerber::read_gerber;
//! use cam_writers::gerber_text;
//!
//! let layer = read_gerber(alloc, b"%FSLAX23Y23*%%MOMM*%%ADD11C,.5*%D11*X1000Y0D03*M02*")?;
//! let text = gerber_text(alloc, &layer)?;
//! let canonical = b"%FSLAX46Y46*%\n%MOMM*%\nG01*\nG75*\n%ADD11C,0.500000*%\nD11*\nX1000000Y0D03*\nM02*\n";
//! assert!(rt; text.as_slice() == canonical.as_slice());
//! ```
#![tactic(auto)]

mod drill_text;
mod gerber_apertures;
mod gerber_commands;
mod gerber_layers;
mod gerber_macros;
mod gerber_objects;
mod gerber_state;
mod laws;
mod lengths;

pub use drill_text::{push_declaration, xnc_text};
pub use gerber_layers::{gerber_text, push_aperture};
pub use laws::{
    drill_texts_read_back, drill_texts_tell_their_lines, drill_texts_write_again,
    gerber_texts_read_back, gerber_texts_tell_their_commands, gerber_texts_write_again,
};
pub use lengths::push_decimal;
