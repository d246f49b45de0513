//! Known answers: values for single calls of the libraries, worked out from the standards by hand.
//!
//! The contracts of the libraries say what each call gives where memory lasts; no clause can say that it lasts, and
//! none can refuse 'no memory' in place of a fault. So each call that takes memory is seen here to succeed and to
//! tell each of its faults, and the definitions behind the contracts are held against values from outside; rows of
//! centres are held against point tests. The faults of files and the texts of layers are seen in the built program
//! (`black_box/rows`). An example is a row of a table, and a loop plays each table. A table that is one text is played
//! with the count of its rows, so that none is passed over.
#![tactic(auto)]

#[cfg(test)]
mod apertures;
#[cfg(test)]
mod attributes;
#[cfg(test)]
mod boards;
#[cfg(test)]
mod commands;
#[cfg(test)]
mod drills;
#[cfg(test)]
mod faults;
#[cfg(test)]
mod gerber;
#[cfg(test)]
mod history;
#[cfg(test)]
mod layers;
#[cfg(test)]
mod macros;
#[cfg(test)]
mod objects;
#[cfg(test)]
mod pages;
#[cfg(test)]
mod parts;
#[cfg(test)]
mod pictures;
#[cfg(test)]
mod places;
#[cfg(test)]
mod rows;
#[cfg(test)]
mod shapes;
#[cfg(test)]
mod tables;
#[cfg(test)]
mod text;
#[cfg(test)]
mod tiles;
#[cfg(test)]
mod units;
#[cfg(test)]
mod ways;
#[cfg(test)]
mod words;
