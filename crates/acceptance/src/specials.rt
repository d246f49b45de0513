//! What a case cannot say: calls that fail.

use crate::boards::{DISC, EMPTY, held};
use crate::files::MemoryFiles;
use crate::out::MemoryOut;
use cam_station::{Command, Files, Out, RunFault, Station, run};
use std::alloc::Global;
use std::collections::VecDeque;
use std::process::Abort;
use std::test::Fail;

/// Runs a script over the files and compares what it says; how many of its lines are refused.
pub fn says_over(
    rt: &impl Abort,
    alloc: Global,
    files: &mut MemoryFiles,
    depth: u32,
    script: &[u8],
    replies: &[u8],
) -> Result<u64, Fail> {
    let mut out = MemoryOut::new(alloc);
    let refused = run(alloc, depth, script, files, &mut out)?;
    assert_eq!(rt; out.said.as_slice(), replies);
    Ok(refused)
}

#[test]
fn depths_out_of_range(rt: HostRuntime) {
    for depth in [0, 1_001] {
        let mut files = MemoryFiles::new(rt.alloc());
        let mut out = MemoryOut::failing(rt.alloc(), 0);
        let ended = run(rt.alloc(), depth, b"list\n", &mut files, &mut out);
        assert!(rt; ended == Err(RunFault::Depth), "depth {depth}");
    }
}

/// A load that fails and is called again, and a picture that fails, whose tiles are kept, and is plotted again.
const TWICE: &[u8] = b"load top gerber a.gbr\nload top gerber a.gbr\nwindow 0 0 1 1 1\n\
plot top x\nplot top y\n";

/// Whether the file `y` is there, and `x` is not.
fn has_only_y(files: &MemoryFiles) -> bool {
    files.held.get("x").is_none() && files.held.get("y").is_some()
}

/// The first get and the second put fail; the first put is the test's own.
#[test]
fn files_that_fail(rt: HostRuntime) -> Result<(), Fail> {
    let mut files = MemoryFiles::failing(rt.alloc(), 1, 2);
    files.put("a.gbr", EMPTY)?;
    let replies = b"refused 82\nok 0\nok\nrefused 82\nok 0\n".as_slice();
    let refused = says_over(&rt, rt.alloc(), &mut files, 100, TWICE, replies)?;
    assert!(rt; refused == 2 && files.failures() == 2 && has_only_y(&files));
    Ok(())
}

/// The second put fails, and the text that is written again is told.
#[test]
fn a_text_that_fails(rt: HostRuntime) -> Result<(), Fail> {
    let mut files = MemoryFiles::failing(rt.alloc(), 0, 2);
    files.put("a.gbr", EMPTY)?;
    let script = b"load top gerber a.gbr\nwrite top x\nwrite top y\nlist\n".as_slice();
    let replies = b"ok 0\nrefused 82\nok 37\nok 1 0 0\n".as_slice();
    let refused = says_over(&rt, rt.alloc(), &mut files, 100, script, replies)?;
    assert!(rt; refused == 1 && files.failures() == 1 && has_only_y(&files));
    Ok(())
}

/// The second put fails; what was drawn for it is kept, and the same line is accepted.
#[test]
fn a_plot_that_fails(rt: HostRuntime) -> Result<(), Fail> {
    let mut files = MemoryFiles::failing(rt.alloc(), 0, 2);
    files.put("a.gbr", DISC)?;
    let refused = says_over(
        &rt,
        rt.alloc(),
        &mut files,
        100,
        b"load top gerber a.gbr\nwindow -1000000 -1000000 500000 4 4\nplot top p\nplot top p\n",
        b"ok 1\nok\nrefused 82\nok 0\n",
    )?;
    assert!(rt; refused == 1 && files.failures() == 1);
    let wanted = b"P4\n4 4\n\x00\x60\x60\x00".as_slice();
    let file = files.held.get("p").map(|it| it.as_slice() == wanted);
    assert!(rt; file == Some(true));
    Ok(())
}

/// Nothing more is said, or counted, after the say that failed.
#[test]
fn an_output_that_fails(rt: HostRuntime) -> Result<(), Fail> {
    let mut files = held(rt.alloc(), &[("a.gbr", EMPTY)])?;
    let mut out = MemoryOut::failing(rt.alloc(), 5);
    let ended = run(rt.alloc(), 100, TWICE, &mut files, &mut out);
    assert!(rt; ended == Err(RunFault::Output) && out.failures() == 1);
    assert_eq!(rt; out.said.as_slice(), b"ok 0\n".as_slice());
    Ok(())
}

/// Whether of two commands that come as a list the first one alone is refused.
fn is_first_refused(alloc: Global, station: &mut Station) -> Result<bool, Fail> {
    let mut commands = VecDeque::new(alloc);
    commands.push_back(Command::Redo)?;
    commands.push_back(Command::ListAll)?;
    let answers = station.apply_all(commands)?;
    match answers.as_slice() {
        [first, second] => Ok(first.is_err() && second.is_ok()),
        _ => Ok(false),
    }
}

/// Commands that come as a list are each answered, in their order.
#[test]
fn a_list_of_commands(rt: HostRuntime) -> Result<(), Fail> {
    let mut station = Station::new(rt.alloc(), 1)?;
    assert!(rt; is_first_refused(rt.alloc(), &mut station)?);
    Ok(())
}
