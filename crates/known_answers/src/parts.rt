//! Small types are made of what they hold, and give it back without a copy.

use cam_edits::Name;
use cam_gerber::read_gerber;
use cam_objects::{Layer, Tools};
use cam_units::Nm;
use indexmap::IndexMap;
use std::alloc::{AllocError, Global};
use std::process::Abort;
use std::test::Fail;

/// Two tools, the later number first.
fn map(alloc: Global) -> Result<IndexMap<u16, Nm>, AllocError> {
    let mut map = IndexMap::new(alloc);
    map.insert(2, Nm(800_000))?;
    map.insert(1, Nm(1_000_000))?;
    Ok(map)
}

#[test]
fn tools_of_a_map(rt: HostRuntime) -> Result<(), Fail> {
    let tools = Tools::from_map(map(rt.alloc())?);
    assert!(rt; tools.len() == 2 && tools.at(0) == Some((2, Nm(800_000))));
    let map = tools.into_map();
    assert!(rt; map.len() == 2 && map.get(&1) == Some(&Nm(1_000_000)));
    Ok(())
}

/// The numbers of the entries of a layer, in their order, from the map that its dictionary gives back.
fn numbers(rt: &impl Abort, alloc: Global, layer: Layer) -> Result<Vec<u32>, Fail> {
    let Layer { apertures, .. } = layer;
    let map = apertures.into_map();
    assert!(rt; map.len() == 2);
    let mut numbers = Vec::new(alloc);
    for number in map.keys() {
        numbers.push(*number)?;
    }
    Ok(numbers)
}

#[test]
fn entries_of_a_dictionary(rt: HostRuntime) -> Result<(), Fail> {
    let file = b"%FSLAX46Y46*%%MOMM*%%ADD11C,1*%%ADD10R,1X2*%M02*";
    let layer = read_gerber(rt.alloc(), file)?;
    let numbers = numbers(&rt, rt.alloc(), layer)?;
    assert!(rt; numbers.as_slice() == [11, 10].as_slice());
    Ok(())
}

#[test]
fn text_of_a_name(rt: HostRuntime) -> Result<(), Fail> {
    let name = Name::from_string(String::from_str(rt.alloc(), "top")?);
    assert!(rt; name.as_str() == "top");
    assert!(rt; name.into_string().as_str() == "top");
    Ok(())
}
