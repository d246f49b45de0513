//! Undo over any kind of reversible step.
//!
//! A [`History`] keeps the steps that lead back and on, in two rings of groups. Its contracts say that it does what
//! keeping whole earlier and later documents would do.
//!
//! ```rust
//! use cam_gerber::read_gerber;
//! use cam_undo::History;
//!
//! let mut history = History::new(alloc, 100)?;
//! let mut layer = read_gerber(alloc, b"%FSLAX46Y46*%%MOMM*%%ADD10C,1*%D10*X0Y0D03*X2000000D03*M02*")?;
//! ```
//!
//! An edit of the layer, undone and made again; both are lent, as `&mut`:
//!
//! ```rust
//! use cam_edits::{Reversible, Step};
//! use cam_undo::Counts;
//!
//! let step = Step::Delete { k: 0 };
//! assert!(rt; step.fits(layer));
//! history.accept(layer, step)?;
//! assert!(rt; layer.items().len() == 1);
//! history.undo(layer)?;
//! assert!(rt; layer.items().len() == 2);
//! assert!(rt; history.counts() == Counts { past: 0, future: 1, group: None });
//! history.redo(layer)?;
//! assert!(rt; layer.items().len() == 1);
//! ```
#![tactic(auto)]

mod fault;
mod groups;
mod history;
mod laws;

pub use fault::HistoryFault;
pub use history::{Counts, History};
pub use laws::{a_group_is_undone_exactly, an_edit_is_undone_exactly};
