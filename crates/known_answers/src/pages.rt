//! The examples on the first pages of the libraries, word for word and laid out as there. Those of edits and of their undo
//! are functions of their own, to which the board, or the layer and its history, is lent: every way out of one that owns
//! these takes them apart.

ghost use Rattle.std.specs.Prelude.{IfOk};
ghost use Rattle.cam_edits.specs.Sheets.{AreSound, sheets_of};
ghost use Rattle.cam_undo.specs.Timelines.{IsTied};

use cam_edits::{Board, Reversible, Step};
use cam_objects::Layer;
use cam_undo::History;
use std::alloc::Global;
use std::process::Abort;
use std::test::Fail;

#[rattlefmt::skip]
#[test]
fn cam_gerber(rt: HostRuntime) -> Result<(), Fail> {
    let alloc = rt.alloc();
    use cam_gerber::{ReadFault, read_gerber};
    use cam_refusals::Refusal;
    use cam_units::Spot;

    let layer = read_gerber(alloc, b"%FSLAX46Y46*%%MOMM*%%ADD10C,1*%D10*X0Y0D03*M02*")?;
    assert!(rt; layer.items().len() == 1);
    // places are in half nm: the edge of the disc of 1 mm is black
    assert!(rt; layer.black_at(Spot { x: 1_000_000, y: 0 }));
    assert!(rt; !layer.black_at(Spot { x: 1_000_001, y: 0 }));

    // a fault is told with the place of its command, in bytes
    let fault = read_gerber(alloc, b"%FSLAX46Y46*%%MOMM*%%XY1*%M02*").err();
    assert!(rt; fault == Some(ReadFault { code: Refusal::UnknownCommand, at: 20 }));
    Ok(())
}

#[test]
fn cam_tiles(rt: HostRuntime) -> Result<(), Fail> {
    let alloc = rt.alloc();
    use cam_gerber::read_gerber;
    use cam_tiles::{Raster, Source, Window};

    let layer = read_gerber(alloc, b"%FSLAX46Y46*%%MOMM*%%ADD10C,1*%D10*X0Y0D03*M02*")?;
    // three by three pixels of half a millimetre about the disc
    let window = Window {
        x: -750_000,
        y: -750_000,
        pitch: 500_000,
        width: 3,
        height: 3,
    };
    let mut raster = Raster::new(alloc, window)?;
    let mut source = Source::gerber(&layer);
    assert!(rt; raster.redraw(&mut source, u32::MAX) == 1 && raster.pixel(0, 1) == Some(true));
    let file = raster.to_pbm()?;
    assert!(rt; file.as_slice() == b"P4\n3 3\n\x40\xe0\x40".as_slice());
    Ok(())
}

#[rattlefmt::skip]
#[test]
fn cam_words(rt: HostRuntime) -> Result<(), Fail> {
    use cam_refusals::Refusal;
    use cam_words::{Kind, TextFault, Word, Words};

    let mut words = Words::new(b"G04 units*\n%MOMM*%D10*%");
    // a word is a slice of the text, with the place of its first byte
    assert!(rt; words.next() == Some(Ok(Word { kind: Kind::Comment, text: b"G04 units", at: 0 })));
    assert!(rt; words.next() == Some(Ok(Word { kind: Kind::Extended, text: b"MOMM", at: 12 })));
    assert!(rt; words.next() == Some(Ok(Word { kind: Kind::Plain, text: b"D10", at: 18 })));
    // the last `%` begins a command that has no end
    assert!(rt; words.next() == Some(Err(TextFault { code: Refusal::Unterminated, at: 22 })));
    Ok(())
}

#[rattlefmt::skip]
#[test]
fn cam_numbers(rt: HostRuntime) -> Result<(), Fail> {
    use cam_numbers::{Blanks, decimal, integer, leading_integer};

    // a decimal is in 10^-9 of a unit, and exact
    assert!(rt; decimal(b"-0.25", Blanks::Refused) == Some(-250_000_000));
    // line ends, spaces and tabs may stand among the digits of a Gerber file
    assert!(rt; integer(b"12 00", Blanks::Skipped) == Some(1_200));
    assert!(rt; integer(b"12 00", Blanks::Refused) == None);
    // the coordinate that a text begins with
    let leading = leading_integer(b"1500D01");
    assert!(rt; leading.len == 4 && leading.value == Some(1_500));
    Ok(())
}

#[rattlefmt::skip]
#[test]
fn cam_units(rt: HostRuntime) -> Result<(), Fail> {
    use cam_units::{Nm, Point, Turn, Unit, coord_nm};

    // 1.5 inches, written with four decimals
    assert!(rt; coord_nm(15_000, 4, Unit::Inch) == Some(Nm(38_100_000)));
    // mirrored from left to right, and then turned counterclockwise by 90 degrees
    let turn = Turn::M0.then(Turn::R90);
    assert!(rt; turn == Turn::M90);
    assert!(rt; turn.apply(Point { x: 2, y: 1 }) == Point { x: -1, y: -2 });
    Ok(())
}

#[rattlefmt::skip]
#[test]
fn cam_refusals(rt: HostRuntime) -> Result<(), Fail> {
    use cam_refusals::{ReadFault, Refusal};

    // a command that no file may have, at the byte 20 of a file
    let fault = ReadFault { code: Refusal::UnknownCommand, at: 20 };
    // a script is replied `refused 3 20`
    assert!(rt; fault.code.number() == 3);
    Ok(())
}

#[rattlefmt::skip]
#[test]
fn cam_commands(rt: HostRuntime) -> Result<(), Fail> {
    use cam_commands::{Command, OperationCode, Slot, command_of};
    use cam_words::Words;

    let mut words = Words::new(b"X10Y-20D03*");
    let Some(Ok(word)) = words.next() else {
        return Err(Fail::new("it is a word"));
    };
    let Command::Operate(operation) = command_of(word) else {
        return Err(Fail::new("it is an operation"));
    };
    assert!(rt; operation.code == Some(OperationCode::Flash));
    assert!(rt; operation.x == Slot::Written(10) && operation.y == Slot::Written(-20));
    assert!(rt; operation.i == Slot::Omitted);
    Ok(())
}

#[rattlefmt::skip]
#[test]
fn cam_macros(rt: HostRuntime) -> Result<(), Fail> {
    let alloc = rt.alloc();
    use cam_macros::{Macro, Prim, PrimShape};
    use cam_units::{Nm, Point, Unit};

    let pad = Macro::parse(alloc, b"PAD*$3=$1/2*21,1,$1,$3,0,0,90*1,0,$2,$3-.25,0*")?;
    // parameters are in 10^-9 of a unit: 1.5 mm and 0.4 mm
    let primitives = pad.expand(alloc, &[1_500_000_000, 400_000_000], Unit::Mm)?;
    let Some(Prim { paint: false, shape: PrimShape::Disc { centre, diameter } }) = primitives.as_slice().get(1) else {
        return Err(Fail::new("its second part clears a disc"));
    };
    assert!(rt; *centre == Point { x: 500_000, y: 0 } && *diameter == Nm(400_000));
    Ok(())
}

#[rattlefmt::skip]
#[test]
fn cam_shapes(rt: HostRuntime) -> Result<(), Fail> {
    use cam_shapes::{Disc, in_disc, in_hole};
    use cam_units::{Nm, Point, Spot};

    // a disc of 1 mm at (1 mm, 0)
    let disc = Disc { centre: Point { x: 1_000_000, y: 0 }, diameter: Nm(1_000_000) };
    // places are in half nm; its edge belongs to a disc, and to no hole
    let edge = Spot { x: 3_000_000, y: 0 };
    assert!(rt; in_disc(edge, disc) && !in_hole(edge, disc));
    assert!(rt; !in_disc(Spot { x: 3_000_001, y: 0 }, disc));
    Ok(())
}

#[rattlefmt::skip]
#[test]
fn cam_rows(rt: HostRuntime) -> Result<(), Fail> {
    use cam_rows::{Centres, disc_row, pbm_bytes};
    use cam_shapes::Disc;
    use cam_units::{Nm, Point};

    // eight centres half a millimetre apart, in half nm, from -1.75 mm to 1.75 mm
    let centres = Centres { x: -3_500_000, y: 0, step: 1_000_000, n: 8 };
    // a disc of 2 mm at (0.5 mm, 0) covers those from -0.25 mm to 1.25 mm; bit 0 is the leftmost
    let disc = Disc { centre: Point { x: 500_000, y: 0 }, diameter: Nm(2_000_000) };
    let row = disc_row(disc, centres);
    assert!(rt; row == 0b0111_1000);
    // in a PBM file the leftmost pixel is the highest bit
    assert!(rt; pbm_bytes(row)[0] == 0b0001_1110);
    Ok(())
}

#[rattlefmt::skip]
#[test]
fn cam_apertures(rt: HostRuntime) -> Result<(), Fail> {
    let alloc = rt.alloc();
    use cam_apertures::{Macros, parse_ad};
    use cam_units::{Spot, Turn, Unit};

    let mut macros = Macros::new(alloc);
    // what stands behind `%AD`: aperture 10 is a rectangle of 2 mm by 1 mm
    let (number, pad) = parse_ad(alloc, b"D10R,2X1", &mut macros, Unit::Mm)?;
    assert!(rt; number == 10 && pad.is_sound());
    // places are in half nm from the flash point; turned by 90 degrees, it stands upright
    let right = Spot { x: 2_000_000, y: 0 };
    assert!(rt; pad.covers(right, Turn::R0) && !pad.covers(right, Turn::R90));
    Ok(())
}

#[rattlefmt::skip]
#[test]
fn cam_objects(rt: HostRuntime) -> Result<(), Fail> {
    let alloc = rt.alloc();
    use cam_gerber::read_gerber;
    use cam_units::Spot;

    // a disc of 1 mm, and another half a millimetre to its right that clears
    let file = b"%FSLAX46Y46*%%MOMM*%%ADD10C,1*%D10*X0Y0D03*%LPC*%X500000Y0D03*M02*";
    let layer = read_gerber(alloc, file)?;
    assert!(rt; layer.entries().len() == 1 && layer.items().len() == 2);
    // places are in half nm; the last leaf that covers a place decides
    assert!(rt; layer.black_at(Spot { x: -1_000_000, y: 0 }));
    assert!(rt; !layer.black_at(Spot { x: 0, y: 0 }));
    // the topmost item at a place, and the topmost below that one
    assert!(rt; layer.item_at(None, Spot { x: 0, y: 0 }, 2) == Some(1));
    assert!(rt; layer.item_at(None, Spot { x: 0, y: 0 }, 1) == Some(0));
    Ok(())
}

#[rattlefmt::skip]
#[test]
fn cam_xnc(rt: HostRuntime) -> Result<(), Fail> {
    let alloc = rt.alloc();
    use cam_units::Spot;
    use cam_xnc::read_xnc;

    let layer = read_xnc(alloc, b"M48\nMETRIC\nT1C0.8\n%\nT1\nX1.0Y2.5\nM30\n")?;
    assert!(rt; layer.tools().len() == 1 && layer.items().len() == 1);
    // places are in half nm: the right edge of the hit of 0.8 mm at (1 mm, 2.5 mm)
    assert!(rt; layer.black_at(Spot { x: 2_800_000, y: 5_000_000 }));
    assert!(rt; !layer.black_at(Spot { x: 2_800_001, y: 5_000_000 }));
    Ok(())
}

#[rattlefmt::skip]
#[test]
fn cam_writers(rt: HostRuntime) -> Result<(), Fail> {
    let alloc = rt.alloc();
    use cam_gerber::read_gerber;
    use cam_writers::gerber_text;

    let layer = read_gerber(alloc, b"%FSLAX23Y23*%%MOMM*%%ADD11C,.5*%D11*X1000Y0D03*M02*")?;
    let text = gerber_text(alloc, &layer)?;
    let canonical = b"%FSLAX46Y46*%\n%MOMM*%\nG01*\nG75*\n%ADD11C,0.500000*%\nD11*\nX1000000Y0D03*\nM02*\n";
    assert!(rt; text.as_slice() == canonical.as_slice());
    Ok(())
}

#[rattlefmt::skip]
fn board_of_one(alloc: Global) -> Result<Board, Fail>
    ensures { IfOk result (λ board. AreSound (sheets_of board)) }
{
    use cam_edits::{Board, IndexedLayer, Name, Sheet, SheetContent};
    use cam_gerber::read_gerber;

    let name = Name::from_string(String::from_str(alloc, "top")?);
    let layer = read_gerber(alloc, b"%FSLAX46Y46*%%MOMM*%%ADD10C,1*%D10*X0Y0D03*X2000000D03*M02*")?;
    let content = SheetContent::Gerber(IndexedLayer::new(alloc, layer));
    let mut board = Board::new(alloc);
    board.add(Sheet { name, content })?;
    Ok(board)
}

#[rattlefmt::skip]
fn edited(rt: &impl Abort, alloc: Global, board: &mut Board) -> Result<(), Fail>
    requires { AreSound (sheets_of board.old) }
{
    use cam_edits::{BoardStep, Change, Edit, Name, Reversible, plan};
    use std::slice::from_ref;

    let name = Name::from_string(String::from_str(alloc, "top")?);
    let step = plan(alloc, board, Edit { name, change: Change::Delete { k: 0 } })?;
    // room is made before a step is played; the answer leads back
    BoardStep::room(from_ref(&step), board)?;
    let back = step.play(board);
    let left = board.sheet(0).map(|sheet| sheet.content.item_count());
    BoardStep::room(from_ref(&back), board)?;
    assert!(rt; back.fits(board));
    back.play(board);
    let again = board.sheet(0).map(|sheet| sheet.content.item_count());
    assert!(rt; left == Some(1) && again == Some(2));
    Ok(())
}

#[test]
fn cam_edits(rt: HostRuntime) -> Result<(), Fail> {
    let mut board = board_of_one(rt.alloc())?;
    edited(&rt, rt.alloc(), &mut board)
}

#[rattlefmt::skip]
fn undone(rt: &impl Abort, layer: &mut Layer, history: &mut History<Step>) -> Result<(), Fail>
    requires { IsTied ⟦<Step as Reversible>⟧ history.old layer.old }
{
    use cam_edits::{Reversible, Step};
    use cam_undo::Counts;

    let step = Step::Delete { k: 0 };
    assert!(rt; step.fits(layer));
    history.accept(layer, step)?;
    assert!(rt; layer.items().len() == 1);
    history.undo(layer)?;
    assert!(rt; layer.items().len() == 2);
    assert!(rt; history.counts() == Counts { past: 0, future: 1, group: None });
    history.redo(layer)?;
    assert!(rt; layer.items().len() == 1);
    Ok(())
}

#[rattlefmt::skip]
#[test]
fn cam_undo(rt: HostRuntime) -> Result<(), Fail> {
    let alloc = rt.alloc();
    use cam_gerber::read_gerber;
    use cam_undo::History;

    let mut history = History::new(alloc, 100)?;
    let mut layer = read_gerber(alloc, b"%FSLAX46Y46*%%MOMM*%%ADD10C,1*%D10*X0Y0D03*X2000000D03*M02*")?;
    undone(&rt, &mut layer, &mut history)
}
