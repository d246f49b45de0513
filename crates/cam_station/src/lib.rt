//! The station: commands one by one, runs of scripts, and the theorem that they keep.
//!
//! A [`Station`] has a board of named layers, a window with the tiles of each layer in it, and the history of what was
//! done to the board. [`Station::apply`] is one step of the machine in `specs/Machine.antt`; [`undo_is_exact`] and
//! [`plot_is_exact`] are the two halves of the theorem, over all lists of commands, [`write_is_exact`] says of texts
//! what the second says of pictures, and [`tiles_are_local`] which tiles are clean. [`run`] serves a script line by
//! line, over [`Files`] and an [`Out`], as `specs/Run.antt` says; [`apply_line`] serves one line for a caller who hands the
//! bytes of its file in.
//!
//! ```rust
//! use cam_station::{Bytes, Command, FileKind, Name, Station};
//!
//! let mut station = Station::new(alloc, 100)?;
//! let file = b"%FSLAX46Y46*%%MOMM*%%ADD10C,1*%D10*X0Y0D03*M02*";
//! station.apply(Command::Load {
//!     name: Name::from_string(String::from_str(alloc, "top")?),
//!     kind: FileKind::Gerber,
//!     file: Bytes::from_vec(Vec::from_slice(alloc, file)?),
//! })?;
//! ```
//!
//! A line of a script that no file goes with is a command by itself:
//!
//! ```rust
//! use cam_station::{Line, parse_line};
//!
//! let lines: [&[u8]; 3] = [
//!     b"window -750000 -750000 500000 3 3",
//!     b"move top 0 500000 0",
//!     b"undo",
//! ];
//! for line in lines {
//!     if let Some(Line::Command(command)) = parse_line(alloc, line)? {
//!         station.apply(command)?;
//!     }
//! }
//! ```
//!
//! The answer to a plot is the file of the picture, and how many tiles were drawn for it:
//!
//! ```rust
//! use cam_station::Reply;
//!
//! let name = Name::from_string(String::from_str(alloc, "top")?);
//! let Reply::Bytes { bytes, drawn } = station.apply(Command::Plot { name })? else {
//!     return Err(Fail::new("a plot answers bytes"));
//! };
//! assert!(rt; bytes.as_slice() == b"P4\n3 3\n\x40\xe0\x40".as_slice());
//! assert!(rt; drawn == 1);
//! ```
#![tactic(auto)]

mod asking;
mod fault;
mod files;
mod laws;
mod out;
mod reading;
mod reply;
mod reply_line;
mod run_laws;
mod running;
mod serving;
mod showing;
mod station;
mod touching;
mod watch;

pub use cam_edits::{Change, Edit, ListedEntry, ListedItem, Name, NewItem, Sheet, SheetContent};
pub use cam_objects::{Contour, DrillItem, Item, Object, Objects, Points, Seg, Segments};
pub use cam_script::{Bytes, Command, FileKind, FilePath, Line, LineFault, parse_line};
pub use cam_tiles::Window;
pub use cam_undo::Counts;
pub use cam_units::{Items, Nm, Point, Turn};
pub use fault::Fault;
pub use files::{FileFault, Files};
pub use laws::{
    attributes_show_nowhere, depth_is_kept, documents_stay_sound, plot_is_exact,
    refusals_change_nothing, tiles_are_local, undo_is_exact, ways_lead_between_documents,
    write_is_exact, written_texts_load_again,
};
pub use out::Out;
pub use reply::{Numbers, Reply};
pub use run_laws::{few_file_refusals, files_are_exact, run_is_commands};
pub use running::{RunFault, run, run_watched};
pub use serving::{Served, apply_line};
pub use station::Station;
pub use watch::{Unwatched, Watch};
