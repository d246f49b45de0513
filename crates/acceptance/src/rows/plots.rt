//! Flashes, regions and macros.

use super::{Row, WHOLE};

/// The rows.
pub fn rows() -> &'static [Row] {
    ROWS
}

const ROWS: &[Row] = &[
    Row {
        shows: "A file without objects gives an empty layer and a white picture.",
        files: &[("a.gbr", b"%FSLAX36Y36*%\n%MOMM*%\nM02*\n")],
        script: b"load top gerber a.gbr\nwindow -1000000 -1000000 500000 4 4\nplot top p1.pbm\n",
        replies: b"ok 0\nok\nok 1\n",
        written: &[("p1.pbm", b"P4\n4 4\n\x00\x00\x00\x00")],
        ..WHOLE
    },
    Row {
        shows: "Of the four corners of a square region one alone is inside.",
        files: &[(
            "a.gbr",
            b"%FSLAX36Y36*%\n%MOMM*%\nG36*\nX0Y0D02*\nG01*\nX1000000D01*\nY1000000D01*\nX0D01*\nY0D01*\n\
G37*\nM02*\n",
        )],
        script: b"load top gerber a.gbr\nwindow -500000 -500000 1000000 2 2\nplot top p1.pbm\n",
        replies: b"ok 1\nok\nok 1\n",
        written: &[("p1.pbm", b"P4\n2 2\n\x00\x80")],
        ..WHOLE
    },
    Row {
        shows: "A half disc as a region of one arc: places on its chord and at the ends of the chord.",
        files: &[(
            "a.gbr",
            b"%FSLAX36Y36*%\n%MOMM*%\nG75*\nG36*\nX1000000Y0D02*\nG03*\nX-1000000I-1000000D01*\nG37*\n\
M02*\n",
        )],
        script: b"load top gerber a.gbr\nwindow -610000 790000 20000 1 1\nplot top p1.pbm\n\
window -10000 -10000 20000 1 1\nplot top p2.pbm\nwindow -1010000 -10000 20000 1 1\nplot top p3.pbm\n\
window 590000 790000 20000 1 1\nplot top p4.pbm\nwindow 990000 -10000 20000 1 1\nplot top p5.pbm\n",
        replies: b"ok 1\nok\nok 1\nok\nok 1\nok\nok 1\nok\nok 1\nok\nok 1\n",
        written: &[
            ("p1.pbm", b"P4\n1 1\n\x80"),
            ("p2.pbm", b"P4\n1 1\n\x80"),
            ("p3.pbm", b"P4\n1 1\n\x80"),
            ("p4.pbm", b"P4\n1 1\n\x00"),
            ("p5.pbm", b"P4\n1 1\n\x00"),
        ],
        ..WHOLE
    },
    Row {
        shows: "The hole of a clear flash paints nothing: the region under it stays black.",
        files: &[(
            "a.gbr",
            b"%FSLAX36Y36*%\n%MOMM*%\n%ADD10C,2X1*%\nG36*\nX0Y0D02*\nX4000000D01*\nY4000000D01*\nX0D01*\n\
Y0D01*\nG37*\n%LPC*%\nD10*\nX2000000Y2000000D03*\nM02*\n",
        )],
        script: b"load top gerber a.gbr\nwindow 1625000 1625000 750000 4 1\nplot top p1.pbm\n",
        replies: b"ok 2\nok\nok 1\n",
        written: &[("p1.pbm", b"P4\n4 1\n\xa0")],
        ..WHOLE
    },
    Row {
        shows: "A clear flash of a block toggles the polarity of its objects; a mirrored and turned block in a block.",
        files: &[(
            "a.gbr",
            b"%FSLAX36Y36*%\n%MOMM*%\n%ADD10C,1*%\n%ADD11C,0.5*%\n%ADD13R,10X10*%\n%ABD12*%\nD10*\n\
X1000000Y0D03*\n%LPC*%\nD11*\nX1000000Y0D03*\n%LPD*%\n%AB*%\n%ABD14*%\n%LMX*%\n%LR90*%\nD12*\nX0Y0D03*\n%LMN*%\n\
%LR0*%\n%AB*%\nD13*\nX0Y0D03*\n%LPC*%\nD12*\nX0Y0D03*\nD14*\nX3000000Y0D03*\nM02*\n",
        )],
        script: b"load top gerber a.gbr\nwindow 800000 -200000 400000 2 1\nplot top p1.pbm\n\
window 2800000 -1200000 400000 2 1\nplot top p2.pbm\n",
        replies: b"ok 3\nok\nok 1\nok\nok 1\n",
        written: &[("p1.pbm", b"P4\n2 1\n\x80"), ("p2.pbm", b"P4\n2 1\n\x80")],
        ..WHOLE
    },
    Row {
        shows: "The copies of a repeat are painted column by column.",
        files: &[(
            "a.gbr",
            b"%FSLAX36Y36*%\n%MOMM*%\n%ADD10C,1*%\n%ADD11C,0.5*%\n%SRX2Y2I2J2*%\nD10*\nX0Y0D03*\n%LPC*%\n\
D11*\nX-2000000Y2000000D03*\n%SR*%\nM02*\n",
        )],
        script: b"load top gerber a.gbr\nwindow -1000000 -1000000 2000000 2 2\nplot top p1.pbm\n",
        replies: b"ok 1\nok\nok 1\n",
        written: &[("p1.pbm", b"P4\n2 2\n\x40\xc0")],
        ..WHOLE
    },
    Row {
        shows: "A rounded rectangle made by a macro with parameters: a corner at exactly its radius.",
        files: &[(
            "a.gbr",
            b"%FSLAX36Y36*%\n%MOMM*%\n%AMRoundRect*\n0 Rounded*\n4,1,4,$2,$3,$4,$5,$6,$7,$8,$9,$2,$3,0*\n\
1,1,$1+$1,$2,$3*\n1,1,$1+$1,$4,$5*\n1,1,$1+$1,$6,$7*\n1,1,$1+$1,$8,$9*\n20,1,$1+$1,$2,$3,$4,$5,0*\n\
20,1,$1+$1,$4,$5,$6,$7,0*\n20,1,$1+$1,$6,$7,$8,$9,0*\n20,1,$1+$1,$8,$9,$2,$3,0*%\n\
%ADD10RoundRect,0.25X-0.5X-0.25X-0.5X0.25X0.5X0.25X0.5X-0.25*%\nD10*\nX0Y0D03*\nM02*\n",
        )],
        script: b"load top gerber a.gbr\nwindow 600000 400000 100000 2 1\nplot top p1.pbm\n",
        replies: b"ok 1\nok\nok 1\n",
        written: &[("p1.pbm", b"P4\n2 1\n\x80")],
        ..WHOLE
    },
    Row {
        shows: "A rectangle with a hole, turned by 90 degrees: the sides are closed, the hole is open.",
        files: &[(
            "a.gbr",
            b"%FSLAX36Y36*%\n%MOMM*%\n%ADD10R,2X1X0.5*%\n%LR90*%\nD10*\nX0Y0D03*\nM02*\n",
        )],
        script: b"load top gerber a.gbr\nwindow -750000 -1250000 500000 3 5\nplot top p1.pbm\n",
        replies: b"ok 1\nok\nok 1\n",
        written: &[("p1.pbm", b"P4\n3 5\n\xe0\xe0\xa0\xe0\xe0")],
        ..WHOLE
    },
    Row {
        shows: "Old forms of commands, in inches.",
        files: &[(
            "a.gbr",
            b"%FSLAX24Y24*%\nG70*\n%IPPOS*%\n%OFA0B0*%\n%ADD10C,0.1*%\nG54D10*\nG90*\nG01X0Y0D02*\n\
X10000D01*\nY10000*\nM02*\n",
        )],
        script: b"load top gerber a.gbr\nwindow 26660000 12690000 20000 1 1\nplot top p1.pbm\n\
window 26660001 12690000 20000 1 1\nplot top p2.pbm\n",
        replies: b"ok 2\nok\nok 1\nok\nok 1\n",
        written: &[("p1.pbm", b"P4\n1 1\n\x80"), ("p2.pbm", b"P4\n1 1\n\x00")],
        ..WHOLE
    },
];
