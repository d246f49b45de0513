//! File attributes such as no line of a script writes.

use crate::boards::DISC;
use cam_station::{Bytes, Change, Command, Edit, FileKind, Name, Station};
use cam_units::Items;
use std::alloc::{AllocError, Global};
use std::process::Abort;
use std::test::Fail;

fn name(alloc: Global) -> Result<Name, AllocError> {
    Ok(Name::from_string(String::from_str(alloc, "top")?))
}

fn bytes(alloc: Global, text: &[u8]) -> Result<Items<u8>, AllocError> {
    Ok(Items::from_vec(Vec::from_slice(alloc, text)?))
}

/// Loads a layer of one disc.
fn load(station: &mut Station, alloc: Global) -> Result<(), Fail> {
    let load = Command::Load {
        name: name(alloc)?,
        kind: FileKind::Gerber,
        file: Bytes::from_vec(Vec::from_slice(alloc, DISC)?),
    };
    station.apply(load)?;
    Ok(())
}

/// The number of the refusal, or 0.
fn changed(station: &mut Station, alloc: Global, change: Change) -> Result<u8, AllocError> {
    let edit = Edit {
        name: name(alloc)?,
        change,
    };
    match station.apply(Command::from(edit)) {
        Ok(_) => Ok(0),
        Err(fault) => Ok(fault.code.number()),
    }
}

/// What it comes to when the key takes the fields.
fn set(station: &mut Station, alloc: Global, key: &[u8], fields: &[u8]) -> Result<u8, AllocError> {
    let change = Change::SetAttribute {
        key: bytes(alloc, key)?,
        fields: bytes(alloc, fields)?,
    };
    changed(station, alloc, change)
}

/// What it comes to when the key is dropped.
fn dropped(station: &mut Station, alloc: Global, key: &[u8]) -> Result<u8, AllocError> {
    let change = Change::DropAttribute {
        key: bytes(alloc, key)?,
    };
    changed(station, alloc, change)
}

/// What it comes to when a key of so many bytes takes as many bytes of text behind a comma.
fn set_long(
    station: &mut Station,
    alloc: Global,
    key: usize,
    text: usize,
) -> Result<u8, AllocError> {
    let mut fields = vec![in alloc; b'x'; text]?;
    fields.insert(0, b',')?;
    let key = vec![in alloc; b'k'; key]?;
    set(station, alloc, key.as_slice(), fields.as_slice())
}

/// Keys and fields, and what it comes to when they are set, and when the key is dropped.
const WRITTEN: &[(&[u8], &[u8], u8, u8)] = &[
    (b".Part", b",Single", 0, 0),
    (b".Part", b"", 0, 0),
    (b".Part", b"Single", 75, 74),
    (b".Part", b",", 75, 74),
    (b".Part", b",a b", 75, 74),
    (b".Part", b",100%", 75, 74),
    (b".Part", b",a*b", 75, 74),
    (b".Part", b",\xe9", 75, 74),
    (b"", b",Single", 75, 75),
    (b".Part,Single", b"", 75, 75),
    (b".Pa rt", b"", 75, 75),
    (b".Part*", b"", 75, 75),
    (b".Part%", b"", 75, 75),
];

/// Sets and drops them in a station, and compares what it comes to.
fn are_answered(rt: &impl Abort, alloc: Global, station: &mut Station) -> Result<(), Fail> {
    load(station, alloc)?;
    for &(key, fields, if_set, if_dropped) in WRITTEN {
        assert!(rt; set(station, alloc, key, fields)? == if_set);
        assert!(rt; dropped(station, alloc, key)? == if_dropped);
    }
    Ok(())
}

/// Keys and fields that are not written as they may be are refused, and nothing is set.
#[test]
fn keys_and_fields(rt: HostRuntime) -> Result<(), Fail> {
    let mut station = Station::new(rt.alloc(), 1)?;
    are_answered(&rt, rt.alloc(), &mut station)
}

/// Sets long ones in a station, and compares what it comes to.
fn long_ones_are_answered(
    rt: &impl Abort,
    alloc: Global,
    station: &mut Station,
) -> Result<(), Fail> {
    load(station, alloc)?;
    for (key, text, code) in [(255, 4_096, 0), (256, 4_096, 75), (255, 4_097, 75)] {
        assert!(rt; set_long(station, alloc, key, text)? == code);
    }
    Ok(())
}

/// The longest key and the longest fields, and such as are a byte longer.
#[test]
fn long_keys_and_fields(rt: HostRuntime) -> Result<(), Fail> {
    let mut station = Station::new(rt.alloc(), 1)?;
    long_ones_are_answered(&rt, rt.alloc(), &mut station)
}
