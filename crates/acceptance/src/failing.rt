//! One call fails: the first get, put or say of a script, then the second, until a run meets no failure. It is told at
//! its line, nothing is lost by it, and the same line is accepted where the script has it again.

use crate::boards::{BLACK, CUT_SHORT, DISC, File, HOLE_AND_SLOT, WHITE};
use crate::files::MemoryFiles;
use crate::out::MemoryOut;
use cam_station::{Files, Out, RunFault, run};
use std::alloc::{AllocError, Global};
use std::process::Abort;
use std::test::Fail;

/// A line that gets or puts a file, counted from 0, and the line behind it that has it again, if one does: where the
/// first fails, this one says what the first says otherwise.
type Call = (usize, Option<usize>);

/// A script and its depth, what each of its lines says, which of them get and put files, how many lines are refused, how
/// many gets find no file, and what the last puts of some paths leave.
struct Script {
    depth: u32,
    text: &'static [u8],
    replies: &'static [&'static [u8]],
    gets: &'static [Call],
    puts: &'static [Call],
    refused: u64,
    absent: u64,
    written: &'static [File],
}

/// The files that the scripts find.
const FILES: &[File] = &[
    ("a.gbr", DISC),
    ("cut.gbr", CUT_SHORT),
    ("e.drl", HOLE_AND_SLOT),
];

/// Lines that are refused beside such as are not.
const REFUSALS: &Script = &Script {
    depth: 100,
    text: b"plot top p\nload top gerber none.gbr\nload top gerber cut.gbr\nload top gerber a.gbr\nload top gerber a.gbr\n\
plot top p\nwindow 0 0 1 1 1\nplot none p\nplot top p\nplot top p\ndelete top 7\nwrite none t\nwrite top t\nwrite top t\n\
load top drill e.drl\nundo\nwindow 0 0 1 40000 1\nbegin\nload more drill e.drl\nabort\nlist\n",
    replies: &[
        b"refused 60\n",
        b"refused 82\n",
        b"refused 26 48\n",
        b"ok 1\n",
        b"refused 83\n",
        b"refused 84\n",
        b"ok\n",
        b"refused 60\n",
        b"ok 1\n",
        b"ok 0\n",
        b"refused 61\n",
        b"refused 60\n",
        b"ok 70\n",
        b"ok 70\n",
        b"refused 83\n",
        b"refused 70\n",
        b"refused 50\n",
        b"ok\n",
        b"refused 72\n",
        b"ok\n",
        b"ok 1 0 0\n",
    ],
    gets: &[
        (1, None),
        (2, None),
        (3, Some(4)),
        (4, None),
        (14, None),
        (18, None),
    ],
    puts: &[(8, None), (9, None), (12, None), (13, None)],
    refused: 12,
    absent: 1,
    written: &[("p", BLACK)],
};

/// Edits, and a group of them, that are taken back and made again.
const HISTORY: &Script = &Script {
    depth: 100,
    text: b"load top gerber a.gbr\nload top gerber a.gbr\nload holes drill e.drl\nload holes drill e.drl\n\
window 990000 990000 20000 1 1\nplot holes h\nplot top p\nmove top 0 1000000 1000000\nplot top p\nplot top q\nbegin\n\
delete top 0\ndiameter holes 1 500000\nplot holes h\nend\nplot top q\nwrite holes t\nundo\nplot top p\nundo\nplot top q\n\
write top t\nwrite top t\nredo\nredo\nplot top q\nlist\n",
    replies: &[
        b"ok 1\n",
        b"refused 83\n",
        b"ok 2\n",
        b"refused 83\n",
        b"ok\n",
        b"ok 1\n",
        b"ok 1\n",
        b"ok\n",
        b"ok 1\n",
        b"ok 0\n",
        b"ok\n",
        b"ok\n",
        b"ok\n",
        b"ok 1\n",
        b"ok\n",
        b"ok 1\n",
        b"ok 144\n",
        b"ok\n",
        b"ok 1\n",
        b"ok\n",
        b"ok 1\n",
        b"ok 70\n",
        b"ok 70\n",
        b"ok\n",
        b"ok\n",
        b"ok 1\n",
        b"ok 2 2 0\n",
    ],
    gets: &[(0, Some(1)), (1, None), (2, Some(3)), (3, None)],
    puts: &[
        (5, None),
        (6, None),
        (8, None),
        (9, None),
        (13, None),
        (15, None),
        (16, None),
        (18, None),
        (20, None),
        (21, None),
        (22, None),
        (25, None),
    ],
    refused: 2,
    absent: 0,
    written: &[("p", BLACK), ("q", WHITE)],
};

/// The oldest entry is dropped: of three moves at depth 2 two are taken back.
const OLDEST: &Script = &Script {
    depth: 2,
    text: b"load top gerber a.gbr\nload top gerber a.gbr\nmove top 0 1000000 0\nmove top 0 1000000 0\nmove top 0 1000000 0\n\
undo\nundo\nundo\nredo\nredo\npolarity top 0 clear\nredo\nlist\nwrite top t\nwrite top t\n",
    replies: &[
        b"ok 1\n",
        b"refused 83\n",
        b"ok\n",
        b"ok\n",
        b"ok\n",
        b"ok\n",
        b"ok\n",
        b"refused 70\n",
        b"ok\n",
        b"ok\n",
        b"ok\n",
        b"refused 71\n",
        b"ok 1 2 0\n",
        b"ok 83\n",
        b"ok 83\n",
    ],
    gets: &[(0, Some(1)), (1, None)],
    puts: &[(13, None), (14, None)],
    refused: 3,
    absent: 0,
    written: &[("t", MOVED_AND_CLEARED)],
};

/// Refusals in turn, from an empty station on, and at the end what is plotted and written all the same.
const IN_TURN: &Script = &Script {
    depth: 100,
    text: b"plot top x\nload top gerber a.gbr\nload top gerber a.gbr\nplot top x\nredraw 5\nload top gerber a.gbr\n\
move top 1 0 0\ninsert top 2 flash 10 0 0 r0 dark\naperture top 0 11\ntool top 0 1\nmove top 0 1000000000 0\n\
window 0 0 0 1 1\nbegin\nload b gerber a.gbr\nbegin\nend\nend\nabort\nundo\nfrob\nload b gerber none\n\
window -10000 -10000 20000 1 1\nplot top p\nplot top p\nwrite top t\n",
    replies: &[
        b"refused 60\n",
        b"ok 1\n",
        b"refused 83\n",
        b"refused 84\n",
        b"refused 84\n",
        b"refused 83\n",
        b"refused 61\n",
        b"refused 61\n",
        b"refused 62\n",
        b"refused 68\n",
        b"refused 65\n",
        b"refused 50\n",
        b"ok\n",
        b"refused 72\n",
        b"refused 72\n",
        b"ok\n",
        b"refused 73\n",
        b"refused 73\n",
        b"refused 70\n",
        b"refused 80\n",
        b"refused 82\n",
        b"ok\n",
        b"ok 1\n",
        b"ok 0\n",
        b"ok 70\n",
    ],
    gets: &[(1, Some(2)), (2, None), (5, None), (13, None), (20, None)],
    puts: &[(22, None), (23, None), (24, None)],
    refused: 18,
    absent: 1,
    written: &[("p", BLACK)],
};

/// What is written of a disc that was moved three times and made clear.
const MOVED_AND_CLEARED: &[u8] =
    b"%FSLAX46Y46*%\n%MOMM*%\nG01*\nG75*\n%ADD10C,1.000000*%\n%LPC*%\nD10*\nX3000000Y0D03*\nM02*\n";

/// All scripts.
const SCRIPTS: &[&Script] = &[REFUSALS, HISTORY, OLDEST, IN_TURN];

/// The same, from a function of their own: the proof of each function that names a constant has all of its texts.
fn scripts() -> &'static [&'static Script] {
    SCRIPTS
}

/// The files, of which the get and the put of these numbers fail, counted from 1 once the files are there.
fn files(alloc: Global, get: usize, put: usize) -> Result<MemoryFiles, Fail> {
    let put = match put {
        0 => 0,
        _ => (put as u64).saturating_add(FILES.len() as u64),
    };
    let mut files = MemoryFiles::failing(alloc, get as u64, put);
    for &(path, bytes) in FILES {
        files.put(path, bytes)?;
    }
    Ok(files)
}

/// What a line says where no call fails.
fn reply_at(script: &Script, line: usize) -> &'static [u8] {
    match script.replies.get(line) {
        Some(reply) => *reply,
        None => b"",
    }
}

/// All that a script says where a line fails, if one does.
fn told(alloc: Global, script: &Script, failed: Option<Call>) -> Result<Vec<u8>, AllocError> {
    let mut told = Vec::new(alloc);
    for (line, reply) in script.replies.iter().enumerate() {
        let said = match failed {
            Some((at, _)) if at == line => b"refused 82\n".as_slice(),
            Some((at, Some(again))) if again == line => reply_at(script, at),
            _ => *reply,
        };
        told.extend_from_slice(said)?;
    }
    Ok(told)
}

/// Runs a script over the files and compares what it says; how many of its lines are refused.
fn says_so(
    rt: &impl Abort,
    alloc: Global,
    script: &Script,
    files: &mut MemoryFiles,
    failed: Option<Call>,
) -> Result<u64, Fail> {
    let told = told(alloc, script, failed)?;
    let mut out = MemoryOut::new(alloc);
    let refused = run(alloc, script.depth, script.text, files, &mut out)?;
    assert_eq!(rt; out.said.as_slice(), told.as_slice(), "{failed:?}");
    Ok(refused)
}

/// Runs a script over files of which a get or a put fails, and compares what it says, and what it leaves where none of
/// its last puts failed.
fn runs_over(
    rt: &impl Abort,
    alloc: Global,
    script: &Script,
    files: &mut MemoryFiles,
    failed: Option<Call>,
) -> Result<(), Fail> {
    let refused = says_so(rt, alloc, script, files, failed)?;
    let failures = files.failures();
    assert!(rt;
        failures == script.absent.saturating_add(u64::from(failed.is_some())),
        "{failed:?}"
    );
    if failed.is_none() {
        assert!(rt; refused == script.refused, "{refused}");
        for &(path, bytes) in script.written {
            let held = files.held.get(path).map(|it| it.as_slice() == bytes);
            assert!(rt; held == Some(true), "{path}");
        }
    }
    Ok(())
}

/// The same over files of which the get and the put of these numbers fail.
fn runs(
    rt: &impl Abort,
    alloc: Global,
    script: &Script,
    (get, put): (usize, usize),
    failed: Option<Call>,
) -> Result<(), Fail> {
    let mut files = files(alloc, get, put)?;
    runs_over(rt, alloc, script, &mut files, failed)
}

/// Each get fails in turn, then none.
#[test]
fn each_get(rt: HostRuntime) -> Result<(), Fail> {
    let alloc = rt.alloc();
    for &script in scripts() {
        for (k, call) in script.gets.iter().enumerate() {
            // Where there is no file, the failure is counted all the same.
            if reply_at(script, call.0) != b"refused 82\n".as_slice() {
                runs(&rt, alloc, script, (k.saturating_add(1), 0), Some(*call))?;
            }
        }
        let none = (script.gets.len().saturating_add(1), 0);
        runs(&rt, alloc, script, none, None)?;
    }
    Ok(())
}

/// Each put fails in turn, then none.
#[test]
fn each_put(rt: HostRuntime) -> Result<(), Fail> {
    let alloc = rt.alloc();
    for &script in scripts() {
        for (k, call) in script.puts.iter().enumerate() {
            runs(&rt, alloc, script, (0, k.saturating_add(1)), Some(*call))?;
        }
        let none = (0, script.puts.len().saturating_add(1));
        runs(&rt, alloc, script, none, None)?;
    }
    Ok(())
}

/// How a run ends of which the say of this number fails, and what was said before it.
fn says(alloc: Global, script: &Script, say: usize) -> Result<(Option<u64>, MemoryOut), Fail> {
    let mut files = files(alloc, 0, 0)?;
    let mut out = MemoryOut::failing(alloc, say as u64);
    match run(alloc, script.depth, script.text, &mut files, &mut out) {
        Ok(refused) => Ok((Some(refused), out)),
        Err(RunFault::Output) => Ok((None, out)),
        Err(fault) => Err(Fail::new(fault)),
    }
}

/// The same, and how many bytes are said, which begin what is told where no say fails.
fn says_first(
    rt: &impl Abort,
    alloc: Global,
    script: &Script,
    say: usize,
    told: &[u8],
) -> Result<(Option<u64>, usize), Fail> {
    let (refused, out) = says(alloc, script, say)?;
    assert!(rt; told.starts_with(out.said.as_slice()), "say {say}");
    assert!(rt; out.failures() == u64::from(refused.is_none()), "say {say}");
    Ok((refused, out.said.len()))
}

/// Fails each say in turn, and compares what is said; how many lines are refused where none fails.
fn ended(
    rt: &impl Abort,
    alloc: Global,
    script: &Script,
    told: &[u8],
) -> Result<Option<u64>, Fail> {
    let mut before = 0;
    // A say has at least one byte.
    for number in 0..told.len().saturating_add(1) {
        let say = number.saturating_add(1);
        let (refused, said) = says_first(rt, alloc, script, say, told)?;
        if refused.is_some() {
            assert!(rt; said == told.len(), "say {say}");
            return Ok(refused);
        }
        assert!(rt; say == 1 || before < said, "say {say}");
        before = said;
    }
    Ok(None)
}

/// Each say fails in turn, and ends the run: what was said before it is said, and nothing more. Then none fails.
#[test]
fn each_say(rt: HostRuntime) -> Result<(), Fail> {
    for &script in scripts() {
        let told = told(rt.alloc(), script, None)?;
        let ended = ended(&rt, rt.alloc(), script, told.as_slice())?;
        assert!(rt; ended == Some(script.refused), "{ended:?}");
    }
    Ok(())
}
