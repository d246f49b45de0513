//! The examples on the first pages of `cam_script`, `cam_station` and `cam_ask`, word for word. Those over a station are
//! functions of their own: every way out of one that owns a station takes the station apart. So would each of what is read
//! of a line: it is dropped by a call.

use cam_station::{Command, Name, Station};
use std::alloc::Global;
use std::process::Abort;
use std::test::Fail;

fn loaded(alloc: Global) -> Result<Station, Fail> {
    use cam_station::{Bytes, Command, FileKind, Name, Station};

    let mut station = Station::new(alloc, 100)?;
    let file = b"%FSLAX46Y46*%%MOMM*%%ADD10C,1*%D10*X0Y0D03*M02*";
    station.apply(Command::Load {
        name: Name::from_string(String::from_str(alloc, "top")?),
        kind: FileKind::Gerber,
        file: Bytes::from_vec(Vec::from_slice(alloc, file)?),
    })?;
    Ok(station)
}

fn edited(alloc: Global, station: &mut Station) -> Result<(), Fail> {
    use cam_station::{Line, parse_line};

    let lines: [&[u8]; 3] = [
        b"window -750000 -750000 500000 3 3",
        b"move top 0 500000 0",
        b"undo",
    ];
    for line in lines {
        if let Some(Line::Command(command)) = parse_line(alloc, line)? {
            station.apply(command)?;
        }
    }
    Ok(())
}

fn plotted(rt: &impl Abort, alloc: Global, station: &mut Station) -> Result<(), Fail> {
    use cam_station::Reply;

    let name = Name::from_string(String::from_str(alloc, "top")?);
    let Reply::Bytes { bytes, drawn } = station.apply(Command::Plot { name })? else {
        return Err(Fail::new("a plot answers bytes"));
    };
    assert!(rt; bytes.as_slice() == b"P4\n3 3\n\x40\xe0\x40".as_slice());
    assert!(rt; drawn == 1);
    Ok(())
}

fn asked(rt: &impl Abort, alloc: Global, station: &Station) -> Result<(), Fail> {
    use cam_ask::ask;

    // the topmost item at a place in nm, and the words that insert it
    let place = ask(alloc, station, b"at top 0 0")?;
    assert!(rt; place.as_slice() == b"0\n".as_slice());
    let item = ask(alloc, station, b"item top 0")?;
    assert!(rt; item.as_slice() == b"flash 10 0 0 r0 dark\n".as_slice());
    Ok(())
}

#[rattlefmt::skip]
#[test]
fn cam_script(rt: HostRuntime) -> Result<(), Fail> {
    let alloc = rt.alloc();
    use cam_script::{Command, Line, LineFault, parse_line};

    let read = parse_line(alloc, b"move top 3 500000 -250000");
    let is_move = match &read {
        Ok(Some(Line::Command(Command::Move { name, k, dx, dy }))) => {
            name.as_str() == "top" && *k == 3 && *dx == 500_000 && *dy == -250_000
        }
        _ => false,
    };
    drop(read);
    assert!(rt; is_move);
    // a comment says nothing, and a line that lacks words is refused
    assert!(rt; parse_line(alloc, b"# a comment").is_ok_and(|line| line.is_none()));
    assert!(rt; parse_line(alloc, b"move top").err() == Some(LineFault::BadLine));
    Ok(())
}

#[test]
fn cam_station(rt: HostRuntime) -> Result<(), Fail> {
    let mut station = loaded(rt.alloc())?;
    edited(rt.alloc(), &mut station)?;
    asked(&rt, rt.alloc(), &station)?;
    plotted(&rt, rt.alloc(), &mut station)
}
