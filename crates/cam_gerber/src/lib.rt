//! Reads Gerber files (Ucamco's "Gerber Layer Format Specification"): regions, arcs, macros, blocks and
//! repeats among all commands of the profile.
//!
//! What a file means stands in `specs/`: `Statements` says what its words say, `State` what is in force behind
//! the commands so far, `Homes` where an object belongs, `Making` what commands make, `Attributes` the attributes of
//! the file, `Layers` the layer that an object joins, `Faults` what a command may be refused for, `Reading` what the
//! whole file gives, and `Laws` what holds of that. `specs/Machinery/` ties the running record of the code to them.
//!
//! ```rust
//! use cam_gerber::{ReadFault, read_gerber};
//! use cam_refusals::Refusal;
//! use cam_units::Spot;
//!
//! let layer = read_gerber(alloc, b"%FSLAX46Y46*%%MOMM*%%ADD10C,1*%D10*X0Y0D03*M02*")?;
//! assert!(rt; layer.items().len() == 1);
//! // places are in half nm: the edge of the disc of 1 mm is black
//! assert!(rt; layer.black_at(Spot { x: 1_000_000, y: 0 }));
//! assert!(rt; !layer.black_at(Spot { x: 1_000_001, y: 0 }));
//!
//! // a fault is told with the place of its command, in bytes
//! let fault = read_gerber(alloc, b"%FSLAX46Y46*%%MOMM*%%XY1*%M02*").err();
//! assert!(rt; fault == Some(ReadFault { code: Refusal::UnknownCommand, at: 20 }));
//! ```
#![tactic(auto)]

mod attributes;
mod blocks;
mod built;
mod checks;
mod definitions;
mod flashes;
mod frames;
mod homes;
mod laws;
mod modal;
mod obeying;
mod object_list;
mod operations;
mod reader;
mod region;
mod repeats;
mod running;
mod settings;
mod state;

pub use cam_refusals::ReadFault;
pub use laws::{
    attributes_follow_the_rule, files_go_on_behind_their_front, files_mean_one_thing,
    files_mean_what_is_computed, homes_stay_apart, layers_are_sound,
    layers_come_from_faultless_files, no_fault_of_memory, same_settings_change_nothing,
    the_least_gerber_fault_is_told,
};
pub use reader::read_gerber;
