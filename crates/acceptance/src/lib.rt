//! Scripts, run over files and an output in memory.
//!
//! Scripts over real files are cases of `black_box`. Here stand worked examples over files in memory (`rows`), and what
//! such a case cannot say: that a call of a file or of the output fails (`specials`), each call of a script in turn
//! (`failing`), edits that no line writes (`attributes`), questions to a layer by its place (`asking`), what small types and faults tell
//! (`parts`), and the examples of first
//! pages (`page`).
#![tactic(auto)]

#[cfg(test)]
mod asking;
#[cfg(test)]
mod attributes;
#[cfg(test)]
mod boards;
pub mod countdown;
#[cfg(test)]
mod failing;
pub mod files;
pub mod out;
#[cfg(test)]
mod page;
#[cfg(test)]
mod parts;
#[cfg(test)]
mod rows;
#[cfg(test)]
mod specials;
