//! Aperture macros (Gerber Layer Format Specification, "Aperture macro (AM)"), read once and expanded for each
//! aperture that names them, in whole numbers of 10^-9 units.
//!
//! [`Macro::parse`] reads the text of a macro, or tells the fault for which there is none; [`Macro::expand`], and
//! [`expanded`] of its parts alone, give its primitives under the parameters of an aperture, or the fault of its first
//! faulty part:
//!
//! ```text
//! PAD*                      its name
//! 0 a plate with a hole*    a comment
//! $3=$1/2*                  sets a variable; $1, $2 and on are the parameters
//! 21,1,$1,$3,0,0,90*        paints a rectangle, which is turned by 90 degrees
//! 1,0,$2,$3-.25,0*          clears a disc
//! ```
//!
//! Under the parameters 1.5 and 0.4, in millimetres, it expands to two primitives in nm:
//!
//! ```text
//! paint: true,  Rect { centre: (0, 0), width: 750_000, height: 1_500_000 }
//! paint: false, Disc { centre: (500_000, 0), diameter: 400_000 }
//! ```
//!
//! Products and quotients are rounded to the nearest 10^-9 of a unit, lengths to the nearest nanometre, ties away from
//! zero. A [`MacroFault`] has the number by which a refusal is told.
//!
//! What a macro means stands in `specs/`: `Grammar` says which texts are expressions and for which trees they stand,
//! `Reading` which texts are macros, `Arithmetic` what trees are worth, and `Expansion` which primitives the parts
//! make. `Parsing` computes a macro from its text, from left to right, by `Scanning`; that it gives what the grammar
//! says is a law. `specs/Machinery/` ties the running state of the code to them. In `src/`, `parsing` reads parts and
//! expressions, and `expansion` evaluates them and makes the primitives.
//!
//! ```rust
//! use cam_macros::{Macro, Prim, PrimShape};
//! use cam_units::{Nm, Point, Unit};
//!
//! let pad = Macro::parse(alloc, b"PAD*$3=$1/2*21,1,$1,$3,0,0,90*1,0,$2,$3-.25,0*")?;
//! // parameters are in 10^-9 of a unit: 1.5 mm and 0.4 mm
//! let primitives = pad.expand(alloc, &[1_500_000_000, 400_000_000], Unit::Mm)?;
//! let Some(Prim { paint: false, shape: PrimShape::Disc { centre, diameter } }) = primitives.as_slice().get(1) else {
//!     return Err(Fail::new("its second part clears a disc"));
//! };
//! assert!(rt; *centre == Point { x: 500_000, y: 0 } && *diameter == Nm(400_000));
//! ```
#![tactic(auto)]

mod aperture_macro;
mod expansion;
mod expression;
mod fault;
mod fields;
mod laws;
mod parsing;
mod part;
mod primitive;

pub use aperture_macro::{Macro, Name};
pub use expansion::parts::expanded;
pub use expression::{Expression, Operator};
pub use fault::MacroFault;
pub use fields::Fields;
pub use laws::{texts_are_parsed_by_the_grammar, texts_have_one_reading, texts_have_one_tree};
pub use part::{Part, Parts};
pub use primitive::{MacroPrimitive as Prim, Points, PrimShape, Prims};
