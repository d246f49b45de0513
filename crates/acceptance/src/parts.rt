//! Small types of a script give back what they are made of, without a copy, and faults say what they are.

use cam_script::{Bytes, FilePath, LineFault};
use cam_station::{FileFault, RunFault};
use std::alloc::{AllocError, Global};
use std::fmt::Display;
use std::process::Abort;
use std::test::Fail;

#[test]
fn text_of_a_path(rt: HostRuntime) -> Result<(), Fail> {
    let path = FilePath::from_string(String::from_str(rt.alloc(), "a/b.gbr")?);
    assert!(rt; path.as_str() == "a/b.gbr");
    assert!(rt; path.into_string().as_str() == "a/b.gbr");
    Ok(())
}

#[test]
fn bytes_of_a_file(rt: HostRuntime) -> Result<(), Fail> {
    let bytes = Bytes::from_vec(Vec::from_slice(rt.alloc(), b"M02*")?);
    assert!(rt; bytes.as_slice() == b"M02*".as_slice());
    assert!(rt; bytes.into_vec().as_slice() == b"M02*".as_slice());
    Ok(())
}

const LINES: &[(LineFault, &str)] = &[
    (LineFault::LineTooLong, "the line is too long"),
    (LineFault::BadLine, "the line is no command"),
    (LineFault::Memory, "no memory"),
];

const FILES: &[(FileFault, &str)] = &[
    (FileFault::Failed, "the file failed"),
    (FileFault::Memory, "no memory"),
];

const RUNS: &[(RunFault, &str)] = &[
    (RunFault::Depth, "the depth is not from 1 to 1000"),
    (RunFault::Memory, "no memory"),
    (RunFault::Output, "output failed"),
];

fn says<F: Display>(alloc: Global, fault: &F, text: &str) -> Result<bool, AllocError> {
    Ok(format!(in alloc; "{fault}")?.as_str() == text)
}

/// Compares what faults say with texts.
fn say<F: Display>(rt: &impl Abort, alloc: Global, rows: &[(F, &str)]) -> Result<(), Fail> {
    for (fault, text) in rows {
        assert!(rt; says(alloc, fault, text)?, "{text}");
    }
    Ok(())
}

#[test]
fn faults(rt: HostRuntime) -> Result<(), Fail> {
    say(&rt, rt.alloc(), LINES)?;
    say(&rt, rt.alloc(), FILES)?;
    say(&rt, rt.alloc(), RUNS)
}
