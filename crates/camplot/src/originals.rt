//! The files that a run has read, which no picture replaces.

use crate::calls::{About, Node};
use std::alloc::{AllocError, Global};
use std::cell::Cell;
use std::str;

/// How long the name of a layer is at most.
const LONGEST: usize = 32;

/// The name of a layer.
#[derive(Clone, Copy, PartialEq, Eq)]
pub struct Label {
    bytes: [u8; LONGEST],
}

impl Label {
    /// A word as a name, if it is no longer than one.
    fn of(word: &str) -> Option<Label> {
        let mut bytes = [0u8; LONGEST];
        bytes
            .get_mut(..word.len())?
            .copy_from_slice(word.as_bytes());
        Some(Label { bytes })
    }
}

/// What the line that is run does with a file.
#[derive(Clone, Copy)]
pub enum Act {
    /// Nothing, or it reads the script.
    None,
    /// It loads the file as this layer.
    Load(Label),
    /// It replaces the file by a picture.
    Plot,
    /// It replaces the file by the text of this layer.
    Write(Label),
}

/// What a line does with a file, if it is carried out.
fn act_of(line: &[u8]) -> Option<Act> {
    let mut words = str::from_utf8(line).ok()?.split_ascii_whitespace();
    let command = words.next()?;
    let name = Label::of(words.next()?)?;
    match command {
        "load" => Some(Act::Load(name)),
        "plot" => Some(Act::Plot),
        "write" => Some(Act::Write(name)),
        _ => None,
    }
}

/// What who sees the run tells its files: the line that is run, and how many loads of files were accepted.
#[derive(Drop)]
pub struct Course {
    act: Cell<Act>,
    loads: Cell<usize>,
}

impl Course {
    pub fn new() -> Course {
        Course {
            act: Cell::new(Act::None),
            loads: Cell::new(0),
        }
    }

    /// This line is run next.
    pub fn begins(&self, line: &[u8]) {
        self.act.set(act_of(line).unwrap_or(Act::None));
    }

    /// Whether the line that is run replaces a file, if it is carried out.
    pub fn puts(&self) -> bool {
        matches!(self.act.get(), Act::Plot | Act::Write(_))
    }

    /// The line was accepted.
    pub fn is_accepted(&self) {
        if let Act::Load(_) = self.act.get() {
            self.loads.set(self.loads.get().saturating_add(1));
        }
    }
}

/// A file, and the layer that was loaded from it.
#[derive(Clone, Copy)]
struct Original {
    node: Node,
    layer: Label,
}

/// The files that a run has read: the script, and those of its layers.
#[derive(Drop)]
pub struct Originals<'a> {
    course: &'a Course,
    script: Option<Node>,
    /// Those of the loads that were accepted, and one more while a load is run.
    loaded: Vec<Original>,
}

impl<'a> Originals<'a> {
    pub fn new(alloc: Global, course: &'a Course, script: Option<Node>) -> Originals<'a> {
        Originals {
            course,
            script,
            loaded: Vec::new(alloc),
        }
    }

    /// Whether the line that is run loads a file.
    pub fn loads(&self) -> bool {
        matches!(self.course.act.get(), Act::Load(_))
    }

    /// Keeps the file that is loaded by the line that is run.
    pub fn keep(&mut self, node: Node) -> Result<(), AllocError> {
        self.loaded.truncate(self.course.loads.get());
        let Act::Load(layer) = self.course.act.get() else {
            return Ok(());
        };
        self.loaded.push(Original { node, layer })?;
        Ok(())
    }

    /// Whether a layer was loaded from the file.
    fn has(&self, node: Node, layer: Option<Label>) -> bool {
        self.loaded.iter().take(self.course.loads.get()).any(|it| it.node == node
            && layer.is_none_or(|layer| it.layer == layer))
    }

    /// Why the line that is run may not replace the file. `None` where it may.
    pub fn forbids(&self, node: Node) -> Option<&'static str> {
        if self.script == Some(node) {
            return Some("it is the script that is run");
        }
        if !self.has(node, None) {
            return None;
        }
        match self.course.act.get() {
            Act::Write(layer) if self.has(node, Some(layer)) => None,
            Act::Write(_) => Some("another layer was loaded from it"),
            _ => Some("a layer was loaded from it"),
        }
    }

    /// Keeps room for what [`Originals::replaced`] keeps.
    pub fn room(&mut self) -> Result<(), AllocError> {
        self.loaded.truncate(self.course.loads.get());
        self.loaded.reserve(1)
    }

    /// The file was replaced by another, where it may be. One that has other paths stays there.
    pub fn replaced(&mut self, old: About, new: Node) {
        let Act::Write(layer) = self.course.act.get() else {
            return;
        };
        if !self.has(old.node, Some(layer)) {
            return;
        }
        if old.links > 1 {
            if self.loaded.push(Original { node: new, layer }).is_ok() {
                self.course.loads.set(self.loaded.len());
            }
            return;
        }
        for it in self.loaded.iter_mut() {
            if it.node == old.node {
                it.node = new;
            }
        }
    }
}
