//! What `--help` prints after the words of the call.

/// The version of the program.
pub const VERSION: &str = "1.1.0";

/// The commands of a script, the exit statuses, and where the pages are.
pub const AFTER_HELP: &str = "\
Commands, one a line of the script; lengths are in nm, places count from 0, and # begins a comment:
  load NAME gerber PATH, load NAME drill PATH   reads a file as a layer of this name
  window X0 Y0 PITCH W H          sets what plots show: lower left corner, pitch, sides in pixels
  plot NAME PATH                  writes the picture of a layer in the window, a PBM file
  write NAME PATH                 writes the text of a layer, a Gerber or a drill file
  redraw N                        draws N tiles of 64 by 64 pixels ahead of plots
  insert NAME K ITEM              inserts an item at place K (docs/formats.md has the items)
  delete NAME K                   deletes item K
  move NAME K DX DY               moves item K on the board
  reorder NAME K M                moves item K in the list to place M
  aperture NAME K N               gives item K aperture N
  polarity NAME K dark|clear      makes item K dark or clear
  tool NAME K T                   drills item K with tool T
  diameter NAME T D               gives tool T a diameter
  setattr NAME KEY [FIELDS]       sets a file attribute
  dropattr NAME KEY               drops a file attribute
  begin, end, abort               a group of edits, which is undone as one; abort undoes it at once
  undo, redo                      undoes the last edit or group, makes it again
  list, list NAME                 counts layers and edits, or the items of a layer

Each line that is neither empty nor a comment gets one reply: `ok` and numbers, or `refused N`, and for
a faulty file `refused N AT`, where AT is the place in bytes. --explain prints why.

Exit status: 0 if no line was refused, 1 if some line was, 2 if the script did not run to its end.

Pages: docs/formats.md on scripts and files, docs/refusals.md on each N and what to do about it,
docs/recipes.md with scripts to start from.";
