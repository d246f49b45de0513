//! Groups of steps, and how they are played.

ghost use Rattle.std.specs.Prelude.{◌≡◌, ◌≤◌, ◌<◌, ◌+◌, [], ◌∷◌, ◌++◌, length, vec_len, vec_capacity, OnOk, OnErr};
ghost use Rattle.cam_undo.specs.Kept.{steps_of};
ghost use Rattle.cam_undo.specs.Timelines.{GroupFits, GroupsFit, after_group, answers};
ghost use Rattle.cam_undo.specs.Machinery.Shifting.{Shifted};
ghost use Rattle.circular_buffer.specs.Buffer.{buffer, keep_last};

use cam_edits::Reversible;
use circular_buffer::HeapCircularBuffer;
use std::alloc::{AllocError, Global};

/// Plays a group from its last step to its first. The answers, in the order of the plays, lead back.
pub(crate) fn play_group<S: Reversible>(
    mut group: Vec<S>,
    mut played: Vec<S>,
    doc: &mut S::Doc,
) -> Vec<S>
    requires fits { GroupFits S.Reversible group.items (S.content doc.old) }
    requires room { S.has_room group.items doc.old }
    requires none_played { played.items ≡ [] }
    requires place { vec_len group ≤ vec_capacity played }
    ensures content { S.content doc.new ≡ after_group S.Reversible group.items (S.content doc.old) }
    ensures answers { result.items ≡ answers S.Reversible group.items (S.content doc.old) }
{
    while let Some(step) = group.pop() {
        played.push(step.play(doc)).unwrap();
    }
    played
}

/// Plays a step whose answer joins a group.
pub(crate) fn play_onto<S: Reversible>(
    step: S,
    group: &mut Vec<S>,
    doc: &mut S::Doc,
) -> Result<(), AllocError>
    requires { S.is_fit step (S.content doc.old) }
    ensures content { OnOk result (S.content doc.new ≡ S.after step (S.content doc.old)) }
    ensures answer { OnOk result (group.new.items ≡ group.old.items ++ S.inverse step (S.content doc.old) ∷ []) }
    ensures refused { OnErr result ((S.content doc.new ≡ S.content doc.old) × (group.new.items ≡ group.old.items)) }
{
    let earlier = group.len();
    // The step waits at the answer's place, so that room for both is made before it is played.
    group.push(step)?;
    let made = S::room(&group[earlier..], doc);
    if let Some(step) = group.pop() {
        if made.is_ok() {
            group.push(step.play(doc)).unwrap();
        }
    }
    made
}

/// Plays the last group of a ring. Its answers are the last group of the other one.
pub(crate) fn shift<S: Reversible>(
    alloc: Global,
    from: &mut HeapCircularBuffer<Vec<S>>,
    to: &mut HeapCircularBuffer<Vec<S>>,
    doc: &mut S::Doc,
) -> Result<(), AllocError>
    requires some { 0 < length from.old.items }
    requires fits { GroupsFit S.Reversible (steps_of from.old.items) (S.content doc.old) }
    requires place { length from.old.items + length to.old.items ≤ to.old.capacity }
    ensures capacity { (from.new.capacity ≡ from.old.capacity) × (to.new.capacity ≡ to.old.capacity) }
    ensures count { length from.new.items + length to.new.items ≡ length from.old.items + length to.old.items }
    ensures shifted { OnOk result (Shifted S.Reversible (steps_of from.old.items) (steps_of to.old.items)
        (S.content doc.old) (steps_of from.new.items) (steps_of to.new.items) (S.content doc.new)) }
    ensures refused { OnErr result ((from.new ≡ from.old) × (to.new ≡ to.old)
        × (S.content doc.new ≡ S.content doc.old)) }
{
    let Some(group) = from.back() else {
        return Ok(());
    };
    S::room(group, doc)?;
    let played = Vec::with_capacity(alloc, group.len())?;
    if let Some(group) = from.pop_back() {
        let _ = to.push_back(play_group(group, played, doc));
    }
    Ok(())
}

/// Puts a group at the end of a ring. From a full ring the first one goes.
pub(crate) fn keep<S: Reversible>(groups: &mut HeapCircularBuffer<Vec<S>>, group: Vec<S>)
    ensures { groups.new ≡ buffer (keep_last groups.old.capacity (groups.old.items ++ group ∷ [])) groups.old.capacity }
{
    let _ = groups.push_back(group);
}
