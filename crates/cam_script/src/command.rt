//! The commands of a station.

use crate::bytes::Bytes;
use cam_edits::{Change, Edit, Name, NewItem};
use cam_units::{Items, Nm};

/// What a file is written in.
#[derive(Clone, Copy, Debug, PartialEq, Eq)]
pub enum FileKind {
    Gerber,
    /// An XNC drill file.
    Drill,
}

/// A command. Lengths are in nanometres, places count from 0.
#[derive(Drop)]
pub enum Command {
    /// Reads a file as a new layer of this name.
    Load {
        name: Name,
        kind: FileKind,
        file: Bytes,
    },
    /// Sets what plots show: the lower left corner and the pitch in nm, the sides in pixels.
    SetWindow {
        x: i64,
        y: i64,
        pitch: i64,
        width: u32,
        height: u32,
    },
    /// Draws at most so many tiles of 64 by 64 pixels.
    Redraw {
        at_most: u32,
    },
    /// Answers the picture of a layer in the window, as a PBM file.
    Plot {
        name: Name,
    },
    /// Answers the canonical text of a layer, as a file of its kind.
    Write {
        name: Name,
    },
    /// Inserts an item at place `k` of a layer.
    Insert {
        name: Name,
        k: usize,
        item: NewItem,
    },
    /// Deletes item `k`.
    Delete {
        name: Name,
        k: usize,
    },
    /// Moves item `k` by `dx` to the right and `dy` up.
    Move {
        name: Name,
        k: usize,
        dx: i64,
        dy: i64,
    },
    /// Takes item `k` out and puts it at place `m`.
    Reorder {
        name: Name,
        k: usize,
        m: usize,
    },
    /// Gives item `k` the aperture of number `n`.
    Aperture {
        name: Name,
        k: usize,
        n: u32,
    },
    /// Makes item `k` dark or clear.
    Polarity {
        name: Name,
        k: usize,
        dark: bool,
    },
    /// Gives item `k` of a drill layer the tool of number `t`.
    Tool {
        name: Name,
        k: usize,
        t: u16,
    },
    /// Gives the tool of number `t` the diameter `d`.
    Diameter {
        name: Name,
        t: u16,
        d: Nm,
    },
    /// Sets a file attribute; fields are empty, or have a comma before each of them.
    SetAttribute {
        name: Name,
        key: Items<u8>,
        fields: Items<u8>,
    },
    /// Drops a file attribute.
    DropAttribute {
        name: Name,
        key: Items<u8>,
    },
    /// Opens a group: the edits up to its end are taken back together.
    Begin,
    /// Closes the group.
    End,
    /// Closes the group and takes its edits back.
    Abort,
    /// Takes the last edit or group back.
    Undo,
    /// Makes what was taken back last once more.
    Redo,
    /// Counts the layers, and the edits and groups that can be taken back and made again.
    ListAll,
    /// Counts the items of a layer and its apertures and blocks, or its tools.
    ListLayer {
        name: Name,
    },
}

/// The command that makes the edit.
impl From<Edit> for Command {
    ghost use Rattle.std.specs.Prelude.{◌≡◌};
    ghost use Rattle.cam_script.specs.Commands.{edit_command};

    ghost from_gives = { λ edit command. command ≡ edit_command edit };

    fn from(edit: Edit) -> Command {
        let Edit { name, change } = edit;
        match change {
            Change::Insert { k, item } => Command::Insert { name, k, item },
            Change::Delete { k } => Command::Delete { name, k },
            Change::Move { k, dx, dy } => Command::Move { name, k, dx, dy },
            Change::Reorder { k, m } => Command::Reorder { name, k, m },
            Change::Aperture { k, n } => Command::Aperture { name, k, n },
            Change::Polarity { k, dark } => Command::Polarity { name, k, dark },
            Change::Tool { k, t } => Command::Tool { name, k, t },
            Change::Diameter { t, d } => Command::Diameter { name, t, d },
            Change::SetAttribute { key, fields } => Command::SetAttribute { name, key, fields },
            Change::DropAttribute { key } => Command::DropAttribute { name, key },
        }
    }
}
