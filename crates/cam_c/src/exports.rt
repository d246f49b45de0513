//! The functions that C calls. Each looks at its pointers, and calls a session; `include/camplot.h` says what C promises.

ghost use Rattle.std.specs.Prelude.{◌≡◌, List, Option, length, ℕ};
ghost use Rattle.std.specs.Borrow.{full_share, u8, u64};
ghost use Rattle.std.specs.Ptr.{if_non_null, lies_at, room_at};
ghost use Rattle.cam_c.specs.declared.session.Session.{Session};
ghost use Rattle.cam_c.specs.Calls.{file_of, reply_of, text_told};
ghost use Rattle.cam_c.specs.Lent.{held, lent, lent_room};
ghost use Rattle.cam_c.specs.Pointers.{AppliedBy, AskedBy, OpenedBy, RedrawnBy, TileCopiedBy, ToldBy};
ghost use base.Fml.{Share};
ghost use base.Logic.{ex};
ghost use types.Logic.{sem};
ghost use denote.Builtin.{RawPtr};
ghost use denote.RawPtr.{Ptr, Testable};

use crate::loose::Loose;
use crate::session::{Session, begin, end};
use core::slots::Slots;
use std::alloc::Global;
use std::ptr::null_mut;

/// What a station is to C.
#[repr(C)]
pub struct Handle {
    opaque: u8,
}

/// A pointer is null, or a length is past 2^63 - 1.
const NO_POINTER: u32 = 90;

/// The greatest length of what lies in memory.
pub(crate) const LONGEST: usize = 9_223_372_036_854_775_807;

/// Opens a station.
#[unsafe(no_mangle)]
pub unsafe extern "C" fn camplot_open(alloc: Global, depth: u32, station: *mut *mut Handle) -> u32
    requires* { sem 𝓛 (if_non_null station (room_at RawPtr station)) ∗ ⌜ Testable station ⌝ }
    ensures* { ex 𝓤 (λ (p : Ptr). ex 𝓤 (λ (s : Session). sem 𝓛 (if_non_null station (lies_at RawPtr full_share station p))
        ∗ sem 𝓛 (held s p) ∗ ⌜ OpenedBy station depth p s result ⌝)) }
{
    if station.is_null() {
        return NO_POINTER;
    }
    match begin(alloc, depth) {
        Ok(session) => {
            let Loose { at, alloc: _ } = session;
            unsafe { *station = at as *mut Handle };
            0
        }
        Err(code) => {
            unsafe { *station = null_mut() };
            code
        }
    }
}

/// Closes a station.
#[unsafe(no_mangle)]
pub unsafe extern "C" fn camplot_close(alloc: Global, station: *mut Handle)
    ghost s: { Session }
    requires* { sem 𝓛 (held s station) ∗ ⌜ Testable station ⌝ }
{
    if station.is_null() {
        return;
    }
    end(unsafe { Box::from_raw(alloc, station as *mut Session) });
}

/// Applies a line of a script, with the bytes of a file where one is handed in.
#[unsafe(no_mangle)]
pub unsafe extern "C" fn camplot_apply(
    station: *mut Handle,
    line: *const u8,
    line_length: usize,
    file: *const u8,
    file_length: usize,
) -> u32
    ghost g: { Session × (Share × List ℕ) × (Share × List ℕ) }
    requires* { sem 𝓛 (held g.0 station) ∗ sem 𝓛 (lent u8 g.1.0 g.1.1 line) ∗ sem 𝓛 (lent u8 g.2.0 g.2.1 file)
        ∗ ⌜ Testable station × Testable line × Testable file ⌝
        ∗ ⌜ (length g.1.1 ≡ line_length) × (length g.2.1 ≡ file_length) ⌝ }
    ensures* { ex 𝓤 (λ (s : Session). sem 𝓛 (held s station)
        ∗ sem 𝓛 (lent u8 g.1.0 g.1.1 line) ∗ sem 𝓛 (lent u8 g.2.0 g.2.1 file)
        ∗ ⌜ AppliedBy station line g.1.1 file g.2.1 g.0 s result ⌝) }
{
    if station.is_null() {
        return NO_POINTER;
    }
    if line.is_null() {
        return NO_POINTER;
    }
    if line_length > LONGEST {
        return NO_POINTER;
    }
    let session = unsafe { &mut *(station as *mut Session) };
    let words = unsafe { std::slice::from_raw_parts(line, line_length) };
    if file.is_null() {
        return session.apply(words);
    }
    if file_length > LONGEST {
        return NO_POINTER;
    }
    session.load(
        words,
        unsafe { std::slice::from_raw_parts(file, file_length) },
    )
}

/// Answers a question.
#[unsafe(no_mangle)]
pub unsafe extern "C" fn camplot_ask(
    station: *mut Handle,
    question: *const u8,
    question_length: usize,
) -> u32
    ghost g: { Session × (Share × List ℕ) }
    requires* { sem 𝓛 (held g.0 station) ∗ sem 𝓛 (lent u8 g.1.0 g.1.1 question)
        ∗ ⌜ Testable station × Testable question ⌝ ∗ ⌜ length g.1.1 ≡ question_length ⌝ }
    ensures* { ex 𝓤 (λ (s : Session). sem 𝓛 (held s station) ∗ sem 𝓛 (lent u8 g.1.0 g.1.1 question)
        ∗ ⌜ AskedBy station question g.1.1 g.0 s result ⌝) }
{
    if station.is_null() {
        return NO_POINTER;
    }
    if question.is_null() {
        return NO_POINTER;
    }
    if question_length > LONGEST {
        return NO_POINTER;
    }
    let session = unsafe { &mut *(station as *mut Session) };
    let words = unsafe { std::slice::from_raw_parts(question, question_length) };
    session.ask(words)
}

/// Draws dirty tiles.
#[unsafe(no_mangle)]
pub unsafe extern "C" fn camplot_redraw(station: *mut Handle, at_most: u32) -> u32
    ghost g: { Session }
    requires* { sem 𝓛 (held g station) ∗ ⌜ Testable station ⌝ }
    ensures* { ex 𝓤 (λ (s : Session). sem 𝓛 (held s station) ∗ ⌜ RedrawnBy station at_most g s result ⌝) }
{
    if station.is_null() {
        return NO_POINTER;
    }
    unsafe { &mut *(station as *mut Session) }.redraw(at_most)
}

/// Copies a text of the last call, and tells how long it is: the bytes that it had for a file, or else the line of its reply.
unsafe fn tell(station: *mut Handle, of_file: bool, room: *mut u8, capacity: usize) -> usize
    ghost g: { Session × List (Option ℕ) }
    requires* { sem 𝓛 (held g.0 station) ∗ sem 𝓛 (lent_room u8 g.1 room)
        ∗ ⌜ Testable station × Testable room ⌝ ∗ ⌜ length g.1 ≡ capacity ⌝ }
    ensures* { ex 𝓤 (λ (xs : List (Option ℕ)). sem 𝓛 (held g.0 station) ∗ sem 𝓛 (lent_room u8 xs room)
        ∗ ⌜ ToldBy station room (text_told of_file g.0) g.1 xs result ⌝) }
{
    if station.is_null() {
        return 0;
    }
    let session = unsafe { &mut *(station as *mut Session) };
    if room.is_null() {
        return session.text_length(of_file);
    }
    if capacity > LONGEST {
        return session.text_length(of_file);
    }
    let (room, count) = session.copy_text(
        of_file,
        unsafe { Slots::from_raw_parts(room, capacity) },
    );
    let _ = unsafe { room.into_raw_parts() };
    count
}

/// Copies the line of the last reply, and tells how long it is.
#[unsafe(no_mangle)]
pub unsafe extern "C" fn camplot_reply(
    station: *mut Handle,
    room: *mut u8,
    capacity: usize,
) -> usize
    ghost g: { Session × List (Option ℕ) }
    requires* { sem 𝓛 (held g.0 station) ∗ sem 𝓛 (lent_room u8 g.1 room)
        ∗ ⌜ Testable station × Testable room ⌝ ∗ ⌜ length g.1 ≡ capacity ⌝ }
    ensures* { ex 𝓤 (λ (xs : List (Option ℕ)). sem 𝓛 (held g.0 station) ∗ sem 𝓛 (lent_room u8 xs room)
        ∗ ⌜ ToldBy station room (reply_of g.0) g.1 xs result ⌝) }
{
    tell(station, false, room, capacity)
}

/// Copies the bytes that the last line had for a file, and tells how many they are.
#[unsafe(no_mangle)]
pub unsafe extern "C" fn camplot_file(station: *mut Handle, room: *mut u8, capacity: usize) -> usize
    ghost g: { Session × List (Option ℕ) }
    requires* { sem 𝓛 (held g.0 station) ∗ sem 𝓛 (lent_room u8 g.1 room)
        ∗ ⌜ Testable station × Testable room ⌝ ∗ ⌜ length g.1 ≡ capacity ⌝ }
    ensures* { ex 𝓤 (λ (xs : List (Option ℕ)). sem 𝓛 (held g.0 station) ∗ sem 𝓛 (lent_room u8 xs room)
        ∗ ⌜ ToldBy station room (file_of g.0) g.1 xs result ⌝) }
{
    tell(station, true, room, capacity)
}

/// Copies the rows of a clean tile.
#[unsafe(no_mangle)]
pub unsafe extern "C" fn camplot_tile(
    station: *mut Handle,
    layer: u32,
    tile: u32,
    rows: *mut u64,
) -> u32
    ghost g: { Session × List (Option ℕ) }
    requires* { sem 𝓛 (held g.0 station) ∗ sem 𝓛 (lent_room u64 g.1 rows)
        ∗ ⌜ Testable station × Testable rows ⌝ ∗ ⌜ length g.1 ≡ 64 ⌝ }
    ensures* { ex 𝓤 (λ (xs : List (Option ℕ)). sem 𝓛 (held g.0 station) ∗ sem 𝓛 (lent_room u64 xs rows)
        ∗ ⌜ TileCopiedBy station rows g.0 layer tile g.1 xs result ⌝) }
{
    if station.is_null() {
        return NO_POINTER;
    }
    if rows.is_null() {
        return NO_POINTER;
    }
    let session = unsafe { &mut *(station as *mut Session) };
    let (rows, code) = session.copy_tile(layer, tile, unsafe { Slots::from_raw_parts(rows, 64) });
    let _ = unsafe { rows.into_raw_parts() };
    code
}
