//! Layers: a copy, and the image of two flashes.

ghost use Rattle.cam_objects.specs.Soundness.{IsSound};

use crate::tables::each_in;
use cam_gerber::read_gerber;
use cam_objects::Layer;
use cam_units::Spot;
use std::alloc::{AllocError, Global};
use std::test::Fail;

/// A disc of a micrometre at the origin, and one 5 micrometres to its right.
const DISCS: &[u8] = b"%FSLAX66Y66*%%MOMM*%%ADD10C,0.001*%D10*X0Y0D03*X5000D03*M02*";

/// A place in half nm, and whether it is black.
type Place = (i16, i16, bool);

const PLACES: &[Place] = &[
    (0, 0, true),
    (1_000, 0, true),
    (1_001, 0, false),
    (9_000, 0, true),
    (10_000, -1_000, true),
    (10_000, -1_001, false),
];

/// Whether the layer shows the place so, and its copy has an entry and two items.
fn shows(layer: &Layer, place: &Place) -> Result<bool, AllocError>
    requires { IsSound layer.now }
{
    let &(x, y, black) = place;
    let copy = layer.try_copy()?;
    let spot = Spot {
        x: i64::from(x),
        y: i64::from(y),
    };
    Ok(layer.black_at(spot) == black && copy.entries().len() == 1 && copy.items().len() == 2)
}

/// The same of the layer of the file.
fn file_shows(alloc: Global, place: &Place) -> Result<bool, AllocError> {
    match read_gerber(alloc, DISCS) {
        Ok(layer) => shows(&layer, place),
        Err(_) => Ok(false),
    }
}

#[test]
fn layers(rt: HostRuntime) -> Result<(), Fail> {
    each_in(rt.alloc(), PLACES, file_shows)
}

/// Attributes, a block in a block, flashed mirrored, turned and clear, and a repeat with a region.
const LISTS: &[u8] =
    b"%FSLAX36Y36*%%MOMM*%%TF.Part,Single*%%ADD10C,1*%%ADD11C,0.5*%%ADD13R,10X10*%%ABD12*%D10*\
X1000000Y0D03*%LPC*%D11*X1000000Y0D03*%LPD*%%AB*%%ABD14*%%LMX*%%LR90*%D12*X0Y0D03*%LMN*%%LR0*%%AB*%D13*X0Y0D03*\
%LPC*%D12*X0Y0D03*D14*X3000000Y0D03*G75*G03*D10*X1000000Y0D02*X0Y1000000I-1000000J0D01*\
%SRX2Y2I2J2*%G36*X0Y0D02*G01*X1000000D01*Y1000000D01*G37*%SR*%M02*";

/// All that a layer lists: its attributes, its entries and its items, field by field.
fn listed(alloc: Global, layer: &Layer) -> Result<String, AllocError> {
    let mut text = format!(in alloc; "{:?} {:?}", layer.attributes(), layer.items())?;
    for place in 0..layer.entries().len() {
        let entry = layer.entries().at(place);
        text.push_str(format!(in alloc; " {entry:?}")?.as_str())?;
    }
    Ok(text)
}

/// Whether the layer and its copy list the same: an attribute, five entries and five items.
fn is_copied(alloc: Global, layer: &Layer) -> Result<bool, AllocError>
    requires { IsSound layer.now }
{
    let copy = layer.try_copy()?;
    Ok(
        layer.attributes().len() == 1
            && layer.entries().len() == 5
            && layer.items().len() == 5
            && listed(alloc, &copy)? == listed(alloc, layer)?,
    )
}

#[test]
fn a_copy_is_equal(rt: HostRuntime) -> Result<(), Fail> {
    let layer = read_gerber(rt.alloc(), LISTS)?;
    assert!(rt; is_copied(rt.alloc(), &layer)?);
    Ok(())
}
