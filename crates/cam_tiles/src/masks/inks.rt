//! What is known of the pixels of tiles side by side that are painted from the last leaf on: of the leaves that cover a
//! pixel the first that comes decides it.

mod taking;

ghost use Rattle.std.specs.Prelude.{◌≡◌, ◌↔◌, ◌+◌, ◌-◌, ◌*◌, ◌<◌, ◌≤◌, ◌⊎◌, ◌&&◌, not, ℕ, IsTrue, IfErr, OnOk, true, false};
ghost use Rattle.std.specs.Prelude.{if◌then◌else◌, length, nat_lt, replicate, slice_index};
ghost use Rattle.std.specs.Int.{IsBitSet};
ghost use Rattle.cam_tiles.specs.Machinery.Marks.{is_marked, is_set};
ghost use Rattle.cam_tiles.specs.Machinery.Inks.{AreOpen, IsDoneTile, Takes, in_body, in_runs, is_open};

use crate::masks::figure_runs::FigureRuns;
use crate::masks::runs::Runs;
use crate::painter::Tile;
use crate::span::Span;
use cam_rows::run_row;
use std::alloc::{AllocError, Global};
use std::marker::Model;
use taking::{take_pieces, take_rows, take_words};

/// For each pixel of tiles side by side whether it is decided, and whether it is dark then: each tile has 64 words of either
/// kind, one for each of its rows from the top, and its columns are their bits.
#[derive(Drop)]
pub(crate) struct Inks {
    tiles: usize,
    decided: Vec<u64>,
    dark: Vec<u64>,
    /// For each tile, how many of its rows from the top are known to be decided all along.
    known: Vec<u32>,
    /// For each tile the number of one before which all tiles from it on are known to be decided.
    next: Vec<u32>,
}

impl Model for Inks {
    ghost use Rattle.cam_tiles.specs.Machinery.Inks.{Inked, IsInked, inked_of};

    ghost Value = { Inked };

    ghost view = { inked_of };

    ghost invariant = { IsInked };
}

impl Inks {
    /// Of no tile.
    pub(crate) fn new(alloc: Global) -> Inks
        ensures { result.tiles ≡ 0 }
    {
        Inks {
            tiles: 0,
            decided: Vec::new(alloc),
            dark: Vec::new(alloc),
            known: Vec::new(alloc),
            next: Vec::new(alloc),
        }
    }

    /// Turns to tiles: those that are dirty are not decided in so many of the columns and rows, and all else is, as clear.
    /// Memory is asked for where it has not been yet.
    pub(crate) fn turn_to(
        &mut self,
        tiles: &[Tile],
        columns: u32,
        rows: u32,
    ) -> Result<(), AllocError>
        requires few { length tiles.now ≤ 512 }
        requires rows { rows ≤ 64 }
        ensures open { OnOk result (AreOpen tiles.now columns rows self.new) }
        ensures none { IfErr result (λ _. self.new.tiles ≡ 0) }
    {
        self.clear();
        refill(&mut self.decided, 64 * tiles.len(), u64::MAX)?;
        refill(&mut self.dark, 64 * tiles.len(), 0)?;
        refill(&mut self.known, tiles.len(), 0)?;
        refill(&mut self.next, tiles.len(), 0)?;
        open_dirty(&mut self.decided, tiles, columns, rows);
        self.tiles = tiles.len();
        Ok(())
    }

    /// Turns to no tile.
    pub(crate) fn clear(&mut self)
        ensures { self.new.tiles ≡ 0 }
    {
        self.tiles = 0;
    }

    /// The tile itself where it is not decided all over, and else one behind it, before which all from it on are.
    pub(crate) fn past_done(&mut self, tile: u32) -> u32
        requires { tile < self.old.tiles }
        ensures kept { self.new ≡ self.old }
        ensures within { (tile ≤ result) × (result ≤ self.old.tiles) }
        ensures done { (other : ℕ) → tile ≤ other → other < result → IsDoneTile self.old other }
        ensures open { result ≡ tile → IsDoneTile self.old tile → ⊥ }
    {
        let k = tile as usize;
        if self.next[k] > tile {
            return self.next[k];
        }
        let known = known_rows(&self.decided[64 * k..64 * k + 64], self.known[k]);
        self.known[k] = known;
        if known < 64 {
            return tile;
        }
        self.next[k] = tile + 1;
        tile + 1
    }

    /// The first tile from one on that is not decided all over, or the number of all where there is none.
    fn find_open(&mut self, from: u32) -> u32
        requires { from ≤ self.old.tiles }
        ensures kept { self.new ≡ self.old }
        ensures within { (from ≤ result) × (result ≤ self.old.tiles) }
        ensures done { (tile : ℕ) → from ≤ tile → tile < result → IsDoneTile self.old tile }
        ensures open { result < self.old.tiles → IsDoneTile self.old result → ⊥ }
    {
        let mut tile = from;
        while (tile as usize) < self.tiles {
            let next = self.past_done(tile);
            if next == tile {
                return tile;
            }
            tile = next;
        }
        tile
    }

    /// The first tile from one on that is not decided all over, or the number of all where there is none. Those before it
    /// are passed over at once from then on.
    pub(crate) fn first_open(&mut self, from: u32) -> u32
        requires { from ≤ self.old.tiles }
        ensures kept { self.new ≡ self.old }
        ensures within { (from ≤ result) × (result ≤ self.old.tiles) }
        ensures done { (tile : ℕ) → from ≤ tile → tile < result → IsDoneTile self.old tile }
        ensures open { result < self.old.tiles → IsDoneTile self.old result → ⊥ }
    {
        let open = self.find_open(from);
        if from < open {
            self.next[from as usize] = open;
        }
        open
    }

    /// Whether all of all tiles is decided.
    pub(crate) fn is_all_done(&mut self) -> bool
        ensures kept { self.new ≡ self.old }
        ensures done { IsTrue result ↔ ((tile : ℕ) → tile < self.old.tiles → IsDoneTile self.old tile) }
    {
        self.first_open(0) as usize == self.tiles
    }

    /// Looks anew at those of the tiles of runs that are not known to be decided, so that later ones pass over them; where
    /// their box reaches few tiles, each is looked at where it is needed.
    pub(crate) fn look(&mut self, reached: Span, runs: &Runs)
        requires { runs.now.band.end ≤ 64 }
        ensures { self.new ≡ self.old }
    {
        if reached.end <= reached.first.saturating_add(2) {
            return;
        }
        let tiles = runs.tiles();
        let end = tiles.end.min(self.tiles as u32);
        let mut tile = tiles.first;
        while tile < end {
            tile = self.first_open(tile) + 1;
        }
    }

    /// Whether all columns of a span are decided in some rows.
    pub(crate) fn is_decided(&self, columns: Span, rows: Span) -> bool
        requires columns { columns.end ≤ 64 * self.now.tiles }
        requires rows { rows.end ≤ 64 }
        ensures { IsTrue result ↔ ((row column : ℕ) → rows.first ≤ row → row < rows.end → columns.first ≤ column
            → column < columns.end → is_marked self.now.decided row column ≡ true) }
    {
        let end = columns.end.div_ceil(64);
        let mut tile = columns.first / 64;
        while tile < end {
            let open = self.next[tile as usize];
            if open > tile {
                tile = open;
            } else {
                let bits = run_row(columns.first, columns.end, 64 * tile, 64);
                let open_rows = Span {
                    first: rows.first.max(self.known[tile as usize]),
                    end: rows.end,
                };
                if !are_set(&self.decided, tile, open_rows, bits) {
                    return false;
                }
                tile += 1;
            }
        }
        true
    }

    /// Gives a polarity to what is not decided of the tiles from one on and before another, where marks say so: they begin
    /// at the first of these tiles.
    pub(crate) fn take_marked(&mut self, first: usize, end: usize, marks: &[u64], dark: bool)
        requires some { first < end }
        requires end { end ≤ self.old.tiles }
        requires room { 64 * (end - first) ≤ length marks.now }
        ensures { Takes first end (λ row column. is_marked marks.now row (column - 64 * first)) dark self.old self.new }
    {
        take_words(
            &mut self.decided[64 * first..64 * end],
            &mut self.dark[64 * first..64 * end],
            &marks[..64 * (end - first)],
            dark,
        );
    }

    /// Gives a polarity to what is not decided of the columns that are in runs.
    pub(crate) fn take_each(&mut self, runs: &Runs, dark: bool)
        requires { runs.now.band.end ≤ 64 }
        ensures { Takes 0 self.old.tiles (in_runs runs.now) dark self.old self.new }
    {
        let next = &self.next[..self.tiles];
        take_rows(&mut self.decided, &mut self.dark, next, runs, dark);
    }

    /// Gives a polarity to what is not decided of a figure's body, without what is taken out of the body.
    pub(crate) fn take_body(&mut self, runs: &FigureRuns, dark: bool)
        requires { runs.now.body.band.end ≤ 64 }
        ensures { Takes 0 self.old.tiles (in_body runs.now) dark self.old self.new }
    {
        let next = &self.next[..self.tiles];
        take_pieces(&mut self.decided, &mut self.dark, next, runs, dark);
    }

    /// The rows of a tile from the top: bit i of each is set where column i is decided as dark.
    pub(crate) fn rows(&self, tile: usize) -> [u64; 64]
        requires { tile < self.now.tiles }
        ensures each { (row i : ℕ) → row < 64 → i < 64 → is_set (slice_index result row) i
            ≡ (is_marked self.now.decided row (64 * tile + i) && is_marked self.now.dark row (64 * tile + i)) }
        ensures size { length result ≡ 64 }
    {
        let decided = &self.decided[64 * tile..64 * tile + 64];
        let dark = &self.dark[64 * tile..64 * tile + 64];
        let mut rows = [0; 64];
        for row in 0..64 {
            rows[row] = decided[row] & dark[row];
        }
        rows
    }
}

/// Turns to so many numbers that are the same.
fn refill<T: Copy>(numbers: &mut Vec<T>, count: usize, number: T) -> Result<(), AllocError>
    ensures { OnOk result (numbers.new.items ≡ replicate count number) }
{
    numbers.clear();
    numbers.resize(count, number)
}

/// Opens those of tiles that are dirty, in so many of their columns and rows, where all is decided.
fn open_dirty(decided: &mut [u64], tiles: &[Tile], columns: u32, rows: u32)
    requires size { length decided.old ≡ 64 * length tiles.now }
    requires few { length tiles.now ≤ 512 }
    requires rows { rows ≤ 64 }
    requires all { (row column : ℕ) → row < 64 → column < 64 * length tiles.now
        → is_marked decided.old row column ≡ true }
    ensures size { length decided.new ≡ length decided.old }
    ensures each { (row column : ℕ) → row < 64 → column < 64 * length tiles.now
        → is_marked decided.new row column ≡ not (is_open tiles.now columns rows row column) }
{
    for tile in 0..tiles.len() {
        if tiles[tile].is_none() {
            open(decided, tile, columns, rows);
        }
    }
}

/// Opens the first of so many columns, in as many rows, where they are in a tile: they are not decided.
fn open(decided: &mut [u64], tile: usize, columns: u32, rows: u32)
    requires tile { 64 * tile + 64 ≤ length decided.old }
    requires few { tile < 512 }
    requires rows { rows ≤ 64 }
    ensures size { length decided.new ≡ length decided.old }
    ensures each { (row i : ℕ) → row < 64 → i < 64 → is_set (slice_index decided.new (64 * tile + row)) i
        ≡ (if nat_lt row rows && nat_lt (64 * tile + i) columns then false
        else is_set (slice_index decided.old (64 * tile + row)) i) }
    ensures others { (k : ℕ) → (k < 64 * tile) ⊎ (64 * tile + 64 ≤ k)
        → slice_index decided.new k ≡ slice_index decided.old k }
{
    let first = 64 * tile;
    let bits = run_row(0, columns, first as u32, 64);
    for row in 0..rows as usize {
        decided[first + row] &= !bits;
    }
}

/// How many rows of a tile from the top are decided all along, where so many are known to be.
fn known_rows(words: &[u64], known: u32) -> u32
    requires size { length words.now ≡ 64 }
    requires known { known ≤ 64 }
    requires rows { (row i : ℕ) → row < known → i < 64 → is_set (slice_index words.now row) i ≡ true }
    ensures few { result ≤ 64 }
    ensures rows { (row i : ℕ) → row < result → i < 64 → is_set (slice_index words.now row) i ≡ true }
    ensures open { result < 64 → ((i : ℕ) → i < 64 → is_set (slice_index words.now result) i ≡ true) → ⊥ }
{
    for row in known..64 {
        if words[row as usize] != u64::MAX {
            return row;
        }
    }
    64
}

/// Whether some bits are set in rows of a tile.
fn are_set(words: &[u64], tile: u32, rows: Span, bits: u64) -> bool
    requires tile { tile < 512 }
    requires rows { rows.end ≤ 64 }
    requires within { 64 * tile + rows.end ≤ length words.now }
    ensures { IsTrue result ↔ ((row i : ℕ) → rows.first ≤ row → row < rows.end → i < 64 → IsBitSet bits i
        → is_set (slice_index words.now (64 * tile + row)) i ≡ true) }
{
    for row in rows.first..rows.end {
        if words[(64 * tile + row) as usize] & bits != bits {
            return false;
        }
    }
    true
}
