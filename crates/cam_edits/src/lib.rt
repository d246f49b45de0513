//! Edits of boards as steps that turn into their inverses.
//!
//! A [`Board`] is a list of named layers of two kinds. [`plan`] judges an [`Edit`] of it and answers the [`BoardStep`]
//! that makes it, as `specs/Editing.antt` says. [`Reversible`] says what a step is: playing it changes its document and
//! answers the step that leads back. [`Step`] edits the items and the file attributes of a layer, [`DrillStep`] the
//! items and the tools of a drill layer.
//!
//! ```rust
//! use cam_edits::{Board, IndexedLayer, Name, Sheet, SheetContent};
//! use cam_gerber::read_gerber;
//!
//! let name = Name::from_string(String::from_str(alloc, "top")?);
//! let layer = read_gerber(alloc, b"%FSLAX46Y46*%%MOMM*%%ADD10C,1*%D10*X0Y0D03*X2000000D03*M02*")?;
//! let content = SheetContent::Gerber(IndexedLayer::new(alloc, layer));
//! let mut board = Board::new(alloc);
//! board.add(Sheet { name, content })?;
//! ```
//!
//! An edit of this board, which is lent as `&mut Board`:
//!
//! ```rust
//! use cam_edits::{BoardStep, Change, Edit, Name, Reversible, plan};
//! use std::slice::from_ref;
//!
//! let name = Name::from_string(String::from_str(alloc, "top")?);
//! let step = plan(alloc, board, Edit { name, change: Change::Delete { k: 0 } })?;
//! // room is made before a step is played; the answer leads back
//! BoardStep::room(from_ref(&step), board)?;
//! let back = step.play(board);
//! let left = board.sheet(0).map(|sheet| sheet.content.item_count());
//! BoardStep::room(from_ref(&back), board)?;
//! assert!(rt; back.fits(board));
//! back.play(board);
//! let again = board.sheet(0).map(|sheet| sheet.content.item_count());
//! assert!(rt; left == Some(1) && again == Some(2));
//! ```
#![tactic(auto)]

mod apertures;
mod asking;
mod attribute_judging;
mod board;
mod board_step;
mod carrying;
mod copies;
mod drill_judging;
mod drill_mending;
mod drill_step;
mod edit;
mod fault;
mod indexed;
mod indexed_drill;
mod item_refusal;
mod item_tools;
mod judging;
mod laws;
mod listed;
mod mending;
mod moving;
mod name;
mod planning;
mod reversible;
mod shift;
mod step;
mod touched;

pub use attribute_judging::{is_field_text, is_key};
pub use board::{Board, Sheet, SheetContent};
pub use board_step::BoardStep;
pub use drill_step::DrillStep;
pub use edit::{Change, Edit, NewItem};
pub use fault::EditFault;
pub use indexed::IndexedLayer;
pub use indexed_drill::IndexedDrillLayer;
pub use laws::{attributes_change_no_picture, edits_stay_in_their_boxes, edits_stay_sound};
pub use listed::{ListedEntry, ListedItem};
pub use name::Name;
pub use planning::plan;
pub use reversible::Reversible;
pub use step::Step;
