//! What a station is asked of one of two layers by hand: it answers of that one.

use cam_station::{Bytes, Command, FileKind, Name, Station};
use cam_units::{Bounds, Spot};
use std::alloc::Global;
use std::process::Abort;
use std::test::Fail;

/// A disc of 1 mm at the origin.
const FIRST: &[u8] = b"%FSLAX46Y46*%%MOMM*%%ADD10C,1*%D10*X0Y0D03*M02*";

/// One far from it, and then one at the origin.
const SECOND: &[u8] = b"%FSLAX46Y46*%%MOMM*%%ADD10C,1*%D10*X9000000Y0D03*X0Y0D03*M02*";

/// The least box about a disc of 1 mm at the origin, in half nm.
const ABOUT: Bounds = Bounds::Closed {
    low: Spot {
        x: -1_000_000,
        y: -1_000_000,
    },
    high: Spot {
        x: 1_000_000,
        y: 1_000_000,
    },
};

/// Loads a file as the layer of a name.
fn load(alloc: Global, station: &mut Station, name: &str, file: &[u8]) -> Result<(), Fail> {
    station.apply(Command::Load {
        name: Name::from_string(String::from_str(alloc, name)?),
        kind: FileKind::Gerber,
        file: Bytes::from_vec(Vec::from_slice(alloc, file)?),
    })?;
    Ok(())
}

/// Asks for the item at the origin, and for the next one in the box about it, of each layer, and of one that is not there.
fn tells_apart(rt: &impl Abort, station: &Station) -> Result<(), Fail> {
    let origin = Spot { x: 0, y: 0 };
    assert!(rt; station.item_at(0, origin, usize::MAX) == Some(0));
    assert!(rt; station.item_at(1, origin, usize::MAX) == Some(1));
    assert!(rt; station.item_at(2, origin, usize::MAX).is_none());
    assert!(rt; station.item_in(0, ABOUT, 0) == Some(0));
    assert!(rt; station.item_in(1, ABOUT, 0) == Some(1));
    assert!(rt; station.item_in(2, ABOUT, 0).is_none());
    Ok(())
}

#[test]
fn each_layer_is_asked(rt: HostRuntime) -> Result<(), Fail> {
    let mut station = Station::new(rt.alloc(), 1)?;
    load(rt.alloc(), &mut station, "first", FIRST)?;
    load(rt.alloc(), &mut station, "second", SECOND)?;
    tells_apart(&rt, &station)
}
