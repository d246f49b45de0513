//! File attributes of a layer: which may be set, and what is then kept (Gerber Layer Format Specification, "File
//! attributes (TF)").

use crate::tables::each_in;
use cam_edits::{Board, BoardStep, IndexedLayer, Name, Reversible, Sheet, SheetContent, Step};
use cam_gerber::read_gerber;
use cam_objects::{Attribute, Layer};
use cam_units::Items;
use std::alloc::{AllocError, Global};
use std::process::Abort;
use std::test::Fail;

/// A name and its fields.
type Written = (&'static [u8], &'static [u8]);

/// What is set, in order, each with whether it may be, and what is kept at the end.
type Row = (&'static [(Written, bool)], &'static [Written]);

const ROWS: &[Row] = &[
    // a new name goes last; one that is there keeps its place and takes the fields
    (
        &[
            ((b".Part", b",Single"), true),
            ((b".FileFunction", b",Copper,L1,Top"), true),
            ((b".Part", b",Array"), true),
            ((b".Mine", b""), true),
        ],
        &[
            (b".Part", b",Array"),
            (b".FileFunction", b",Copper,L1,Top"),
            (b".Mine", b""),
        ],
    ),
    // the empty name, line ends and a tab, and bytes past ASCII may be set
    (
        &[((b"", b""), true), ((b"a\t\n\r\xc3\xa9 ", b",,\xff"), true)],
        &[(b"", b""), (b"a\t\n\r\xc3\xa9 ", b",,\xff")],
    ),
    // a comma in the name, fields without one before them, and the bytes that end an attribute may not
    (
        &[
            ((b"a,b", b""), false),
            ((b"a", b"b"), false),
            ((b"a", b" ,b"), false),
            ((b"a%", b""), false),
            ((b"a*", b""), false),
            ((b"a", b",%"), false),
            ((b"a", b",*"), false),
            ((b"a\x7f", b""), false),
            ((b"a\x1f", b""), false),
            ((b"a", b",\x00"), false),
        ],
        &[],
    ),
];

fn items(alloc: Global, bytes: &[u8]) -> Result<Items<u8>, AllocError> {
    Ok(Items::from_vec(Vec::from_slice(alloc, bytes)?))
}

/// Sets an attribute if it may be set; whether it may.
fn set(alloc: Global, layer: &mut Layer, name: &[u8], fields: &[u8]) -> Result<bool, AllocError> {
    let (key, text) = (items(alloc, name)?, items(alloc, fields)?);
    if !layer.check_attribute(key.as_slice(), text.as_slice()) {
        return Ok(false);
    }
    layer.set_attribute(key, text)?;
    Ok(true)
}

/// Whether an attribute is written so.
fn is_written(attribute: &Attribute, (name, fields): Written) -> bool {
    attribute.name.as_slice() == name && attribute.fields.as_slice() == fields
}

/// Whether the layer has these attributes, in order.
fn has(layer: &Layer, kept: &[Written]) -> bool {
    let attributes = layer.attributes();
    if attributes.len() != kept.len() {
        return false;
    }
    for (attribute, written) in attributes.iter().zip(kept) {
        if !is_written(attribute, *written) {
            return false;
        }
    }
    true
}

/// Sets what the row sets, and compares what is kept.
fn keeps(alloc: Global, layer: &mut Layer, row: &Row) -> Result<bool, AllocError> {
    for &((name, fields), may) in row.0 {
        if set(alloc, layer, name, fields)? != may {
            return Ok(false);
        }
    }
    Ok(has(layer, row.1))
}

/// The same of a new layer.
fn is_kept(alloc: Global, row: &Row) -> Result<bool, AllocError> {
    let mut layer = Layer::new(alloc);
    keeps(alloc, &mut layer, row)
}

#[test]
fn attributes(rt: HostRuntime) -> Result<(), Fail> {
    each_in(rt.alloc(), ROWS, is_kept)
}

/// Sets attributes whose names are 1 to so many bytes long; whether each of them may be set.
fn set_many(alloc: Global, layer: &mut Layer, count: usize) -> Result<bool, AllocError> {
    for length in 0..count {
        let name = vec![in alloc; b'x'; length]?;
        if !set(alloc, layer, name.as_slice(), b"")? {
            return Ok(false);
        }
    }
    Ok(true)
}

/// Whether a layer of 1,000 attributes takes no further name, and new fields of one that it has.
fn is_full(alloc: Global, layer: &mut Layer) -> Result<bool, AllocError> {
    Ok(
        set_many(alloc, layer, 1_000)?
            && !set(alloc, layer, b"y", b"")?
            && set(alloc, layer, b"xx", b",y")?
            && layer.attributes().len() == 1_000,
    )
}

#[test]
fn attributes_at_their_limit(rt: HostRuntime) -> Result<(), Fail> {
    let mut layer = Layer::new(rt.alloc());
    match is_full(rt.alloc(), &mut layer)? {
        true => Ok(()),
        false => Err(Fail::new("1,000 attributes are the most")),
    }
}

/// Of what is put behind `.Part,Single`, and whether the step fits the board.
const PUT: &[(Written, bool)] = &[
    ((b".Mine", b""), true),
    ((b".Mine", b",a b"), true),
    ((b".Part", b",Array"), false),
    ((b".Mine", b"a"), false),
    ((b"a,b", b""), false),
    ((b".Mine", b",*"), false),
];

/// Of the fields that `.Part` takes, and whether the step fits the board.
const FILLED: &[(&[u8], bool)] = &[
    (b"", true),
    (b",Array", true),
    (b"Array", false),
    (b",%", false),
];

/// A board of one layer, which has the attribute `.Part,Single`.
fn board(alloc: Global) -> Result<Board, Fail> {
    let layer = read_gerber(alloc, b"%FSLAX46Y46*%%MOMM*%%TF.Part,Single*%M02*")?;
    let content = SheetContent::Gerber(IndexedLayer::new(alloc, layer));
    let name = Name::from_string(String::from_str(alloc, "top")?);
    let mut board = Board::new(alloc);
    board.add(Sheet { name, content })?;
    Ok(board)
}

/// Whether a step of the layer fits the board.
fn fits(alloc: Global, board: &Board, step: Step) -> bool {
    let step = BoardStep::Gerber {
        sheet: 0,
        step,
        boxes: Vec::new(alloc),
    };
    step.fits(board)
}

/// Whether an attribute may be put behind the other one.
fn may_put(alloc: Global, board: &Board, (name, fields): Written) -> Result<bool, AllocError> {
    let attribute = Attribute {
        name: items(alloc, name)?,
        fields: items(alloc, fields)?,
    };
    Ok(fits(alloc, board, Step::PutAttribute { k: 1, attribute }))
}

/// Whether the attribute may take the fields.
fn may_fill(alloc: Global, board: &Board, fields: &[u8]) -> Result<bool, AllocError> {
    let fields = items(alloc, fields)?;
    Ok(fits(alloc, board, Step::SetFields { k: 0, fields }))
}

/// Compares which steps fit.
fn are_fit(rt: &impl Abort, alloc: Global, board: &Board) -> Result<(), Fail> {
    for &(written, may) in PUT {
        assert!(rt; may_put(alloc, board, written)? == may);
    }
    for &(fields, may) in FILLED {
        assert!(rt; may_fill(alloc, board, fields)? == may);
    }
    Ok(())
}

#[test]
fn steps_of_attributes(rt: HostRuntime) -> Result<(), Fail> {
    let board = board(rt.alloc())?;
    are_fit(&rt, rt.alloc(), &board)
}
