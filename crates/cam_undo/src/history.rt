//! The history of a document: what leads back, and what leads on again.

ghost use Rattle.std.specs.Prelude.{◌≡◌, ◌≤◌, IfErr, IfOk, IsErrOf, None, OnErr, OnOk, [], length};
ghost use Rattle.std.specs.Option.{option_copied};
ghost use Rattle.circular_buffer.specs.Buffer.{last_item};
ghost use Rattle.cam_undo.specs.Counted.{counts_at, counts_of};
ghost use Rattle.cam_undo.specs.Machine.{IsHistoryRefusal, abort_fault, aborted, accepted, begin_fault, begun, cleared};
ghost use Rattle.cam_undo.specs.Machine.{depth_fault};
ghost use Rattle.cam_undo.specs.Machine.{end_fault, ended, redo_fault, redone, undo_fault, undone};
ghost use Rattle.cam_undo.specs.Timelines.{GroupLeads, IsTied, open_answers, timeline_of, with_group_closed};
ghost use Rattle.cam_undo.specs.Timelines.{with_group_ended, with_group_open, with_last_redone, with_last_undone};
ghost use Rattle.cam_undo.specs.Timelines.{with_step};

use crate::fault::HistoryFault;
use crate::groups::{keep, play_group, play_onto, shift};
use cam_edits::Reversible;
use circular_buffer::HeapCircularBuffer;
use std::alloc::{AllocError, Global};
use std::marker::Model;

/// The greatest depth.
const DEEPEST: usize = 1_000;

/// The lengths of the two lists and, where a group is open, of the group.
#[derive(Clone, Copy, Debug, PartialEq, Eq)]
pub struct Counts {
    pub past: usize,
    pub future: usize,
    pub group: Option<usize>,
}

/// What was done to a document, to be taken back and done again.
///
/// The history does not hold the document: each call that plays a step takes it, and asks that the two are tied.
#[derive(Drop)]
pub struct History<S: Reversible> {
    alloc: Global,
    past: HeapCircularBuffer<Vec<S>>,
    future: HeapCircularBuffer<Vec<S>>,
    group: Option<Vec<S>>,
}

impl<S: Reversible> Model for History<S> {
    ghost use Rattle.std.specs.Prelude.{◌≡◌, ◌+◌, ◌≤◌, ◌<◌, length};
    ghost use Rattle.cam_undo.specs.Kept.{Kept, open_count, open_steps, steps_of};

    ghost Value = { Kept S };

    ghost view = { λ h. record {
      depth = h.past.capacity;
      past = steps_of h.past.items;
      future = steps_of h.future.items;
      open_group = open_steps h.group;
    } };

    ghost invariant = { λ h. (h.future.capacity ≡ h.past.capacity)
        × (length h.past.items + length h.future.items ≤ h.past.capacity)
        × (0 < open_count h.group → length h.future.items ≡ 0) };
}

impl<S: Reversible> History<S> {
    /// A history without past and future, of a depth from 1 to 1,000.
    pub fn new(alloc: Global, depth: usize) -> Result<History<S>, HistoryFault>
        ensures made { IfOk result (λ h. h ≡ record { depth = depth; past = []; future = []; open_group = None }) }
        ensures refused { IfErr result (λ fault. IsHistoryRefusal (depth_fault depth) fault) }
        ensures accepted { OnOk result (depth_fault depth ≡ None) }
    {
        if depth < 1 || depth > DEEPEST {
            return Err(HistoryFault::Depth);
        }
        Ok(History {
            alloc,
            past: HeapCircularBuffer::with_capacity(alloc, depth)?,
            future: HeapCircularBuffer::with_capacity(alloc, depth)?,
            group: None,
        })
    }

    /// Plays a step. Its answer joins the open group, or is a group of its own. Nothing is left to redo.
    pub fn accept(&mut self, doc: &mut S::Doc, step: S) -> Result<(), AllocError>
        requires tied { IsTied S.Reversible self.old doc.old }
        requires fits { S.is_fit step (S.content doc.old) }
        ensures tied { IsTied S.Reversible self.new doc.new }
        ensures kept { OnOk result (self.new ≡ with_step S.Reversible step (S.content doc.old) self.old) }
        ensures accepted { OnOk result (timeline_of S.Reversible self.new doc.new ≡ accepted self.old.depth
            (S.after step (S.content doc.old)) (timeline_of S.Reversible self.old doc.old)) }
        ensures refused { OnErr result ((self.new ≡ self.old) × (S.content doc.new ≡ S.content doc.old)) }
        ensures depth { self.new.depth ≡ self.old.depth }
    {
        if let Some(group) = &mut self.group {
            play_onto(step, group, doc)?;
            self.future.clear();
            return Ok(());
        }
        let mut group = Vec::new(self.alloc);
        play_onto(step, &mut group, doc)?;
        keep(&mut self.past, group);
        self.future.clear();
        Ok(())
    }

    /// Opens a group. Takes no memory.
    pub fn begin(&mut self) -> Result<(), HistoryFault>
        ensures kept { OnOk result (self.new ≡ with_group_open S.Reversible self.old) }
        ensures tied { (doc : S.Doc) → IsTied S.Reversible self.old doc → IsTied S.Reversible self.new doc }
        ensures begun { OnOk result ((doc : S.Doc) → timeline_of S.Reversible self.new doc
            ≡ begun (timeline_of S.Reversible self.old doc)) }
        ensures allowed { OnOk result ((doc : S.Doc) → begin_fault (timeline_of S.Reversible self.old doc) ≡ None) }
        ensures open { IfErr result (λ fault. (doc : S.Doc)
            → begin_fault (timeline_of S.Reversible self.old doc) ≡ Some fault) }
        ensures refused { OnErr result (self.new ≡ self.old) }
    {
        if self.group.is_some() {
            return Err(HistoryFault::GroupOpen);
        }
        self.group = Some(Vec::new(self.alloc));
        Ok(())
    }

    /// Closes the group. One with edits becomes one step of the past. Takes no memory.
    pub fn end(&mut self) -> Result<(), HistoryFault>
        ensures kept { OnOk result (self.new ≡ with_group_ended S.Reversible self.old) }
        ensures tied { (doc : S.Doc) → IsTied S.Reversible self.old doc → IsTied S.Reversible self.new doc }
        ensures ended { OnOk result ((doc : S.Doc) → timeline_of S.Reversible self.new doc
            ≡ ended self.old.depth (timeline_of S.Reversible self.old doc)) }
        ensures allowed { OnOk result ((doc : S.Doc) → end_fault (timeline_of S.Reversible self.old doc) ≡ None) }
        ensures fault { IfErr result (λ fault. (doc : S.Doc)
            → end_fault (timeline_of S.Reversible self.old doc) ≡ Some fault) }
        ensures refused { OnErr result (self.new ≡ self.old) }
    {
        let Some(group) = self.group.take() else {
            return Err(HistoryFault::NoGroup);
        };
        if group.len() > 0 {
            keep(&mut self.past, group);
        }
        Ok(())
    }

    /// Closes the group and takes its edits back. Hands out the answers of its steps.
    pub fn abort(&mut self, doc: &mut S::Doc) -> Result<Vec<S>, HistoryFault>
        requires tied { IsTied S.Reversible self.old doc.old }
        ensures tied { IsTied S.Reversible self.new doc.new }
        ensures kept { OnOk result (self.new ≡ with_group_closed S.Reversible self.old) }
        ensures answers { IfOk result (λ handed. handed.items
            ≡ open_answers S.Reversible self.old.open_group (S.content doc.old)) }
        ensures aborted { OnOk result (timeline_of S.Reversible self.new doc.new
            ≡ aborted (timeline_of S.Reversible self.old doc.old)) }
        ensures allowed { OnOk result (abort_fault (timeline_of S.Reversible self.old doc.old) ≡ None) }
        ensures fault { IfErr result (λ fault.
            IsHistoryRefusal (abort_fault (timeline_of S.Reversible self.old doc.old)) fault) }
        ensures refused { OnErr result ((self.new ≡ self.old) × (S.content doc.new ≡ S.content doc.old)) }
    {
        let Some(group) = &self.group else {
            return Err(HistoryFault::NoGroup);
        };
        S::room(group, doc)?;
        let mut handed = Vec::with_capacity(self.alloc, group.len())?;
        if let Some(group) = self.group.take() {
            handed = play_group(group, handed, doc);
        }
        Ok(handed)
    }

    /// Takes the last edit or group back.
    pub fn undo(&mut self, doc: &mut S::Doc) -> Result<(), HistoryFault>
        requires tied { IsTied S.Reversible self.old doc.old }
        ensures tied { IsTied S.Reversible self.new doc.new }
        ensures kept { OnOk result (self.new ≡ with_last_undone S.Reversible (S.content doc.old) self.old) }
        ensures undone { OnOk result (timeline_of S.Reversible self.new doc.new
            ≡ undone (timeline_of S.Reversible self.old doc.old)) }
        ensures allowed { OnOk result (undo_fault (timeline_of S.Reversible self.old doc.old) ≡ None) }
        ensures fault { IfErr result (λ fault.
            IsHistoryRefusal (undo_fault (timeline_of S.Reversible self.old doc.old)) fault) }
        ensures refused { OnErr result ((self.new ≡ self.old) × (S.content doc.new ≡ S.content doc.old)) }
    {
        if self.group.is_some() {
            return Err(HistoryFault::GroupOpen);
        }
        if self.past.is_empty() {
            return Err(HistoryFault::NothingToUndo);
        }
        shift(self.alloc, &mut self.past, &mut self.future, doc)?;
        Ok(())
    }

    /// Makes what was taken back last once more.
    pub fn redo(&mut self, doc: &mut S::Doc) -> Result<(), HistoryFault>
        requires tied { IsTied S.Reversible self.old doc.old }
        ensures tied { IsTied S.Reversible self.new doc.new }
        ensures kept { OnOk result (self.new ≡ with_last_redone S.Reversible (S.content doc.old) self.old) }
        ensures redone { OnOk result (timeline_of S.Reversible self.new doc.new
            ≡ redone (timeline_of S.Reversible self.old doc.old)) }
        ensures allowed { OnOk result (redo_fault (timeline_of S.Reversible self.old doc.old) ≡ None) }
        ensures fault { IfErr result (λ fault.
            IsHistoryRefusal (redo_fault (timeline_of S.Reversible self.old doc.old)) fault) }
        ensures refused { OnErr result ((self.new ≡ self.old) × (S.content doc.new ≡ S.content doc.old)) }
    {
        if self.group.is_some() {
            return Err(HistoryFault::GroupOpen);
        }
        if self.future.is_empty() {
            return Err(HistoryFault::NothingToRedo);
        }
        shift(self.alloc, &mut self.future, &mut self.past, doc)?;
        Ok(())
    }

    /// The lengths of the past and the future, and of the open group.
    pub fn counts(&self) -> Counts
        ensures kept { result ≡ counts_of self.now }
        ensures counts { (doc : S.Doc) → result ≡ counts_at (timeline_of S.Reversible self.now doc) }
    {
        let past = self.past.len();
        let future = self.future.len();
        let group = match &self.group {
            Some(group) => Some(group.len()),
            None => None,
        };
        Counts {
            past,
            future,
            group,
        }
    }

    /// Forgets the past and the future.
    pub fn clear(&mut self)
        requires { self.old.open_group ≡ None }
        ensures kept { self.new ≡ record { depth = self.old.depth; past = []; future = []; open_group = None } }
        ensures tied { (doc : S.Doc) → IsTied S.Reversible self.new doc }
        ensures cleared { (doc : S.Doc) → timeline_of S.Reversible self.new doc
            ≡ cleared (timeline_of S.Reversible self.old doc) }
    {
        self.past.clear();
        self.future.clear();
    }

    /// The steps of the open group, which the next abort plays from the last to the first.
    pub fn open_group(&self) -> Option<&[S]>
        ensures kept { option_copied result ≡ self.now.open_group }
        ensures leads { (doc : S.Doc) → IsTied S.Reversible self.now doc
            → GroupLeads S.Reversible (option_copied result)
            (S.content doc) (aborted (timeline_of S.Reversible self.now doc)).document }
    {
        match &self.group {
            Some(group) => Some(group),
            None => None,
        }
    }

    /// The steps that the next undo plays, from the last to the first.
    pub fn last_undo(&self) -> Option<&[S]>
        ensures kept { option_copied result ≡ last_item self.now.past }
        ensures leads { (doc : S.Doc) → IsTied S.Reversible self.now doc → self.now.open_group ≡ None
            → GroupLeads S.Reversible (option_copied result)
            (S.content doc) (undone (timeline_of S.Reversible self.now doc)).document }
    {
        match self.past.back() {
            Some(group) => Some(group),
            None => None,
        }
    }

    /// The steps that the next redo plays, from the last to the first.
    pub fn last_redo(&self) -> Option<&[S]>
        ensures kept { option_copied result ≡ last_item self.now.future }
        ensures leads { (doc : S.Doc) → IsTied S.Reversible self.now doc → self.now.open_group ≡ None
            → GroupLeads S.Reversible (option_copied result)
            (S.content doc) (redone (timeline_of S.Reversible self.now doc)).document }
    {
        match self.future.back() {
            Some(group) => Some(group),
            None => None,
        }
    }
}
