//! What the numbers of refusals are called, and what to do about each, in the words of docs/refusals.md.

/// A row for each number: its name, and what to do.
const ADVICE: &str = "\
1 bad byte: load drill files as `drill`; tools/to_gerber and tools/to_xnc drop stray bytes
2 unterminated: the file was cut short or is no Gerber file: plot or fetch it again
3 unknown command: tools/to_gerber converts many old forms; docs/refusals.md lists the others
4 bad number: look at the digits, sign and point of the number, and at the range it may have
5 no format: plot as RS-274X, extended Gerber or X2, which write %FS..*% at the front
6 no unit: write the unit before it; tools/to_gerber --unit and tools/to_xnc do that
7 set again: format or unit take two values: these are two files in one, load each by itself
8 format refused: plot absolute, leading zeros left out (%FSLA); tools/to_gerber converts others
9 unknown aperture: export with embedded apertures (RS-274X): an %ADD must stand before its Dn
10 redefined: the number or name is in use: these are two files in one, load each by itself
11 template refused: use round, rectangular, oval or rounded pads, or plot the pad as a region
12 primitive refused: plot such pads as regions; tools/to_gerber converts 22, and others by --nearest
13 rotation refused: in KiCad tick `Disable aperture macros`; other files: tools/to_gerber --nearest
14 scale refused: plot without scaling of apertures, or use tools/to_gerber --nearest
15 none selected: select an aperture by Dn before the first draw or flash
16 wrong aperture: fill areas by regions, and draw arcs with a round pen without a hole
17 arc mode: write G75* at the front; tools/to_gerber converts the arcs of G74
18 zero radius: write G01* before lines, or choose a format of more decimals for small arcs
19 flash in region: flash after the region's G37*
20 not in region: a G36* is missing before it: plot the file again
21 nested repeat: take the repeat out of the block, and repeat its flash
22 stray block: close the block by %AB*%, or the region by G37*, before it
23 out of board: see that format and unit fit the coordinates, or set the origin near the board
24 size refused: look at the unit, then for what has no size, or one past 200 mm
25 too much: fill areas by regions in place of lines; give repeats fewer copies
26 no end: the file was cut short: plot it again, or if it is whole add the line M02*
28 old refused: plot positive and absolute, with no offset, mirror, rotation or scale
29 macro fault: compare the macro's text with the parameters that %ADD gives it
30 no memory: close what else runs or set a smaller window, and give the line again
40 no header: load Gerber files as `gerber`; tools/to_xnc writes a header if one is missing
41 unknown line: tools/to_xnc converts many other forms; docs/refusals.md lists them
42 unknown tool: the header lacks this tool: write it there as TnCd, or export again
43 tool again: the header has this number twice (T01 is T1): write the file again
44 no tool selected: select a tool by Tn before the first hit or slot
45 no point: choose `Decimal format` in KiCad; else tools/to_xnc writes the points
46 rout arc: have the slot routed in straight lines
47 rout state: a slot is G00, M15, G01, M16, and G05 leads back to hits: mostly one is missing
48 no end: the file was cut short: write it again
50 out of limits: sides are 1 to 32768 pixels, a pitch 1 to 100000000 nm: lengths are in nm
60 no layer: look for the reply to its load above; upper and lower case differ in names
61 no item: places count from 0; `list NAME` prints how many items there are
62 no aperture: the %ADD and %AB of the layer's text, as `write` shows it, are what it has
63 wrong aperture: take a circle, for a draw also a rectangle, or flash the shape
64 has none: delete the item, and insert another
65 out of board: all points stay within 1 m of (0, 0): lengths are in nm
66 no tool: the T lines of the layer's text, as `write` shows it, are what it has
67 size refused: an arc has a radius, and a diameter is 1 nm to 200 mm: lengths are in nm
68 wrong kind: hit, rout, tool and diameter go with drill layers, all else with Gerber layers
69 too much: delete items or drop attributes first, or load the rest as another layer
70 nothing to undo: edit after the last load; --depth N keeps up to 1000 edits and groups
71 nothing to redo: redo right after the undo, or else give the edit again
72 group open: `end` or `abort` first
73 no group: look for the reply to its `begin` above
74 no attribute: the %TF lines of the layer's text, as `write` shows it, are what it has
75 attribute refused: keys hold no blanks, comma, % and *, and fields no blanks, % and *
80 bad line: camplot --help has the words of each command; docs/formats.md has all of them
81 line too long: a line has at most 65536 bytes: load so long a region or slot from a file
82 file fault: paths are as seen from where the program runs, without quotes and ~
83 name taken: take another name: a layer stays until the run ends
84 no window: give a `window` first, and look for its reply
85 too many layers: a run has at most 32 layers: load the others in a run of their own";

/// What is told of a number: its name, and what to do.
pub fn advice_on(code: u8) -> (&'static str, &'static str) {
    for row in ADVICE.lines() {
        if let Some((number, told)) = row.split_once(' ')
            && number.parse() == Ok(code)
            && let Some(parts) = told.split_once(": ")
        {
            return parts;
        }
    }
    ("refused", "see docs/refusals.md")
}
