//! Runs of an undo history over the smallest document.

ghost use Rattle.cam_undo.specs.Timelines.{IsTied};
ghost use Rattle.known_answers.specs.contracts.history.sheet.PutReversible.TheImpl.{ghosts};

mod sheet;

use crate::tables::each_in;
use cam_undo::{Counts, History, HistoryFault};
use sheet::{Put, Sheet};
use std::alloc::{AllocError, Global};
use std::test::Fail;

#[derive(Clone, Copy)]
enum Call {
    Put(u32),
    Begin,
    End,
    Abort,
    Undo,
    Redo,
}

/// A call, its refusal, the number after it, and the lengths of the past, the future and the open group.
type Row = (
    Call,
    Option<HistoryFault>,
    u32,
    (usize, usize, Option<usize>),
);

/// At depth 1 the second edit pushes the first out; an edit after undo leaves nothing to redo.
const DEPTH_1: &[Row] = &[
    (
        Call::Undo,
        Some(HistoryFault::NothingToUndo),
        0,
        (0, 0, None),
    ),
    (
        Call::Redo,
        Some(HistoryFault::NothingToRedo),
        0,
        (0, 0, None),
    ),
    (Call::Put(1), None, 1, (1, 0, None)),
    (Call::Put(2), None, 2, (1, 0, None)),
    (Call::Undo, None, 1, (0, 1, None)),
    (
        Call::Undo,
        Some(HistoryFault::NothingToUndo),
        1,
        (0, 1, None),
    ),
    (Call::Redo, None, 2, (1, 0, None)),
    (Call::Undo, None, 1, (0, 1, None)),
    (Call::Put(3), None, 3, (1, 0, None)),
    (
        Call::Redo,
        Some(HistoryFault::NothingToRedo),
        3,
        (1, 0, None),
    ),
    (Call::Undo, None, 1, (0, 1, None)),
];

/// At depth 2: an empty group, one that is aborted, and one of ten edits, undone and redone as a whole.
const DEPTH_2: &[Row] = &[
    (Call::End, Some(HistoryFault::NoGroup), 0, (0, 0, None)),
    (Call::Abort, Some(HistoryFault::NoGroup), 0, (0, 0, None)),
    (Call::Begin, None, 0, (0, 0, Some(0))),
    (
        Call::Begin,
        Some(HistoryFault::GroupOpen),
        0,
        (0, 0, Some(0)),
    ),
    (Call::End, None, 0, (0, 0, None)),
    (Call::Put(7), None, 7, (1, 0, None)),
    (Call::Undo, None, 0, (0, 1, None)),
    (Call::Begin, None, 0, (0, 1, Some(0))),
    (Call::Abort, None, 0, (0, 1, None)),
    (Call::Redo, None, 7, (1, 0, None)),
    (Call::Undo, None, 0, (0, 1, None)),
    (Call::Begin, None, 0, (0, 1, Some(0))),
    (Call::Put(8), None, 8, (0, 0, Some(1))),
    (Call::Put(9), None, 9, (0, 0, Some(2))),
    (
        Call::Undo,
        Some(HistoryFault::GroupOpen),
        9,
        (0, 0, Some(2)),
    ),
    (
        Call::Redo,
        Some(HistoryFault::GroupOpen),
        9,
        (0, 0, Some(2)),
    ),
    (Call::Abort, None, 0, (0, 0, None)),
    (Call::Put(5), None, 5, (1, 0, None)),
    (Call::Begin, None, 5, (1, 0, Some(0))),
    (Call::Put(10), None, 10, (1, 0, Some(1))),
    (Call::Put(11), None, 11, (1, 0, Some(2))),
    (Call::Put(12), None, 12, (1, 0, Some(3))),
    (Call::Put(13), None, 13, (1, 0, Some(4))),
    (Call::Put(14), None, 14, (1, 0, Some(5))),
    (Call::Put(15), None, 15, (1, 0, Some(6))),
    (Call::Put(16), None, 16, (1, 0, Some(7))),
    (Call::Put(17), None, 17, (1, 0, Some(8))),
    (Call::Put(18), None, 18, (1, 0, Some(9))),
    (Call::Put(19), None, 19, (1, 0, Some(10))),
    (Call::End, None, 19, (2, 0, None)),
    (Call::Undo, None, 5, (1, 1, None)),
    (Call::Undo, None, 0, (0, 2, None)),
    (Call::Redo, None, 5, (1, 1, None)),
    (Call::Redo, None, 19, (2, 0, None)),
    (Call::Put(20), None, 20, (2, 0, None)),
    (Call::Undo, None, 19, (1, 1, None)),
    (Call::Undo, None, 5, (0, 2, None)),
    (
        Call::Undo,
        Some(HistoryFault::NothingToUndo),
        5,
        (0, 2, None),
    ),
];

/// A depth and its run; a depth past the limits has none.
type Run = (usize, Option<&'static [Row]>);

const RUNS: &[Run] = &[
    (0, None),
    (1, Some(DEPTH_1)),
    (2, Some(DEPTH_2)),
    (1_000, Some(&[])),
    (1_001, None),
];

fn obey(history: &mut History<Put>, doc: &mut Sheet, call: Call) -> Option<HistoryFault>
    requires { IsTied ghosts history.old doc.old }
    ensures { IsTied ghosts history.new doc.new }
{
    match call {
        Call::Put(number) => match history.accept(doc, Put { number }) {
            Ok(()) => None,
            Err(_) => Some(HistoryFault::Memory),
        },
        Call::Begin => history.begin().err(),
        Call::End => history.end().err(),
        Call::Abort => match history.abort(doc) {
            Ok(_) => None,
            Err(fault) => Some(fault),
        },
        Call::Undo => history.undo(doc).err(),
        Call::Redo => history.redo(doc).err(),
    }
}

/// The number of the first row that is not as its call leaves it.
fn first_wrong(history: &mut History<Put>, doc: &mut Sheet, rows: &[Row]) -> Option<u32>
    requires { IsTied ghosts history.old doc.old }
{
    for &(step, fault, number, (past, future, group)) in rows {
        let told = obey(history, doc, step);
        let counts = Counts {
            past,
            future,
            group,
        };
        if told != fault || doc.number != number || history.counts() != counts {
            return Some(number);
        }
    }
    None
}

/// The same of a new history of this depth.
fn first_wrong_at(alloc: Global, depth: usize, rows: &[Row]) -> Result<Option<u32>, HistoryFault> {
    let mut history = History::new(alloc, depth)?;
    Ok(first_wrong(&mut history, &mut Sheet { number: 0 }, rows))
}

/// Whether a history of this depth plays the run.
fn plays(alloc: Global, &(depth, rows): &Run) -> Result<bool, AllocError> {
    match rows {
        Some(rows) => Ok(first_wrong_at(alloc, depth, rows) == Ok(None)),
        None => Ok(first_wrong_at(alloc, depth, &[]) == Err(HistoryFault::Depth)),
    }
}

#[test]
fn histories(rt: HostRuntime) -> Result<(), Fail> {
    each_in(rt.alloc(), RUNS, plays)
}

/// The numbers of a group's steps, added up, and how many there are.
fn sum_of(steps: Option<&[Put]>) -> Option<(usize, u64)> {
    let steps = steps?;
    let mut sum = 0;
    for step in steps {
        sum = u64::wrapping_add(sum, u64::from(step.number));
    }
    Some((steps.len(), sum))
}

/// The sums of the last group, of the one that was undone, and of the open one.
fn kept(history: &History<Put>) -> [Option<(usize, u64)>; 3] {
    [
        sum_of(history.last_undo()),
        sum_of(history.last_redo()),
        sum_of(history.open_group()),
    ]
}

/// Whether the history obeys the calls.
fn accepts(history: &mut History<Put>, doc: &mut Sheet, calls: &[Call]) -> bool
    requires { IsTied ghosts history.old doc.old }
    ensures { IsTied ghosts history.new doc.new }
{
    for &call in calls {
        if obey(history, doc, call).is_some() {
            return false;
        }
    }
    true
}

#[test]
fn kept_steps(rt: HostRuntime) -> Result<(), Fail> {
    let Ok(mut history) = History::new(rt.alloc(), 2) else {
        assert!(rt; false, "no history of depth 2");
        return Ok(());
    };
    let mut doc = Sheet { number: 3 };
    let before = [Call::Put(4), Call::Undo];
    assert!(rt; accepts(&mut history, &mut doc, &before));
    assert!(rt; kept(&history) == [None, Some((1, 4)), None]);
    let behind = [Call::Redo, Call::Begin, Call::Put(5), Call::Put(6)];
    assert!(rt; accepts(&mut history, &mut doc, &behind));
    assert!(rt; kept(&history) == [Some((1, 3)), None, Some((2, 9))]);
    Ok(())
}
