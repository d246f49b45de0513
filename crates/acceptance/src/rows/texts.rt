//! Canonical texts, which read to the same layer.

use super::{Row, WHOLE};

/// The rows.
pub fn rows() -> &'static [Row] {
    ROWS
}

const ROWS: &[Row] = &[
    Row {
        shows: "The text of an empty layer, and that text read and written again.",
        files: &[("a.gbr", b"%FSLAX36Y36*%\n%MOMM*%\nM02*\n")],
        script: b"load top gerber a.gbr\nwrite top t1.gbr\nload b gerber t1.gbr\nlist b\nwrite b t2.gbr\n",
        replies: b"ok 0\nok 37\nok 0\nok 0 0\nok 37\n",
        written: &[
            ("t1.gbr", b"%FSLAX46Y46*%\n%MOMM*%\nG01*\nG75*\nM02*\n"),
            ("t2.gbr", b"%FSLAX46Y46*%\n%MOMM*%\nG01*\nG75*\nM02*\n"),
        ],
        ..WHOLE
    },
    Row {
        shows: "Inch lengths are rounded to the nearest nanometre and not cut down; the text is the canonical one and not a copy of the file.",
        files: &[(
            "a.gbr",
            b"%FSLAX26Y26*%\n%MOIN*%\n%ADD10C,0.1*%\nD10*\nX1Y2D03*\nX3Y0D03*\nM02*\n",
        )],
        script: b"load top gerber a.gbr\nwrite top t1.gbr\n",
        replies: b"ok 2\nok 82\n",
        written: &[(
            "t1.gbr",
            b"%FSLAX46Y46*%\n%MOMM*%\nG01*\nG75*\n%ADD10C,2.540000*%\nD10*\nX25Y51D03*\nX76Y0D03*\n\
M02*\n",
        )],
        ..WHOLE
    },
    Row {
        shows: "The text of a layer with nested blocks reads to the same layer.",
        files: &[(
            "a.gbr",
            b"%FSLAX36Y36*%\n%MOMM*%\n%ADD10C,1*%\n%ADD11C,0.5*%\n%ADD13R,10X10*%\n%ABD12*%\nD10*\n\
X1000000Y0D03*\n%LPC*%\nD11*\nX1000000Y0D03*\n%LPD*%\n%AB*%\n%ABD14*%\n%LMX*%\n%LR90*%\nD12*\nX0Y0D03*\n%LMN*%\n\
%LR0*%\n%AB*%\nD13*\nX0Y0D03*\n%LPC*%\nD12*\nX0Y0D03*\nD14*\nX3000000Y0D03*\nM02*\n",
        )],
        script: b"load top gerber a.gbr\nlist top\nwrite top t1.gbr\nload b gerber t1.gbr\nlist b\n\
write b t2.gbr\n",
        replies: b"ok 3\nok 3 5\nok 287\nok 3\nok 3 5\nok 287\n",
        written: &[
            (
                "t1.gbr",
                b"%FSLAX46Y46*%\n%MOMM*%\nG01*\nG75*\n%ADD10C,1.000000*%\n%ADD11C,0.500000*%\n\
%ADD13R,10.000000X10.000000*%\n%ABD12*%\nD10*\nX1000000Y0D03*\n%LPC*%\nD11*\nX1000000Y0D03*\n%AB*%\n%ABD14*%\n\
%LPD*%\n%LMX*%\n%LR90*%\nD12*\nX0Y0D03*\n%AB*%\n%LMN*%\n%LR0*%\nD13*\nX0Y0D03*\n%LPC*%\nD12*\nX0Y0D03*\nD14*\n\
X3000000Y0D03*\nM02*\n",
            ),
            (
                "t2.gbr",
                b"%FSLAX46Y46*%\n%MOMM*%\nG01*\nG75*\n%ADD10C,1.000000*%\n%ADD11C,0.500000*%\n\
%ADD13R,10.000000X10.000000*%\n%ABD12*%\nD10*\nX1000000Y0D03*\n%LPC*%\nD11*\nX1000000Y0D03*\n%AB*%\n%ABD14*%\n\
%LPD*%\n%LMX*%\n%LR90*%\nD12*\nX0Y0D03*\n%AB*%\n%LMN*%\n%LR0*%\nD13*\nX0Y0D03*\n%LPC*%\nD12*\nX0Y0D03*\nD14*\n\
X3000000Y0D03*\nM02*\n",
            ),
        ],
        ..WHOLE
    },
    Row {
        shows: "The canonical text of a repeat.",
        files: &[(
            "a.gbr",
            b"%FSLAX36Y36*%\n%MOMM*%\n%ADD10C,1*%\n%ADD11C,0.5*%\n%SRX2Y2I2J2*%\nD10*\nX0Y0D03*\n%LPC*%\n\
D11*\nX-2000000Y2000000D03*\n%SR*%\nM02*\n",
        )],
        script: b"load top gerber a.gbr\nwrite top t1.gbr\n",
        replies: b"ok 1\nok 157\n",
        written: &[(
            "t1.gbr",
            b"%FSLAX46Y46*%\n%MOMM*%\nG01*\nG75*\n%ADD10C,1.000000*%\n%ADD11C,0.500000*%\n\
%SRX2Y2I2.000000J2.000000*%\nD10*\nX0Y0D03*\n%LPC*%\nD11*\nX-2000000Y2000000D03*\n%SR*%\nM02*\n",
        )],
        ..WHOLE
    },
    Row {
        shows: "The text of a rounded rectangle is its list of primitives with their values.",
        files: &[(
            "a.gbr",
            b"%FSLAX36Y36*%\n%MOMM*%\n%AMRoundRect*\n0 Rounded*\n4,1,4,$2,$3,$4,$5,$6,$7,$8,$9,$2,$3,0*\n\
1,1,$1+$1,$2,$3*\n1,1,$1+$1,$4,$5*\n1,1,$1+$1,$6,$7*\n1,1,$1+$1,$8,$9*\n20,1,$1+$1,$2,$3,$4,$5,0*\n\
20,1,$1+$1,$4,$5,$6,$7,0*\n20,1,$1+$1,$6,$7,$8,$9,0*\n20,1,$1+$1,$8,$9,$2,$3,0*%\n\
%ADD10RoundRect,0.25X-0.5X-0.25X-0.5X0.25X0.5X0.25X0.5X-0.25*%\nD10*\nX0Y0D03*\nM02*\n",
        )],
        script: b"load top gerber a.gbr\nwrite top t1.gbr\n",
        replies: b"ok 1\nok 538\n",
        written: &[(
            "t1.gbr",
            b"%FSLAX46Y46*%\n%MOMM*%\nG01*\nG75*\n%AMM10*\n\
4,1,4,-0.500000,-0.250000,-0.500000,0.250000,0.500000,0.250000,0.500000,-0.250000,-0.500000,-0.250000,0*\n\
1,1,0.500000,-0.500000,-0.250000,0*\n1,1,0.500000,-0.500000,0.250000,0*\n1,1,0.500000,0.500000,0.250000,0*\n\
1,1,0.500000,0.500000,-0.250000,0*\n20,1,0.500000,-0.500000,-0.250000,-0.500000,0.250000,0*\n\
20,1,0.500000,-0.500000,0.250000,0.500000,0.250000,0*\n20,1,0.500000,0.500000,0.250000,0.500000,-0.250000,0*\n\
20,1,0.500000,0.500000,-0.250000,-0.500000,-0.250000,0*\n%\n%ADD10M10*%\nD10*\nX0Y0D03*\nM02*\n",
        )],
        ..WHOLE
    },
    Row {
        shows: "The canonical text of a file in old forms and inches.",
        files: &[(
            "a.gbr",
            b"%FSLAX24Y24*%\nG70*\n%IPPOS*%\n%OFA0B0*%\n%ADD10C,0.1*%\nG54D10*\nG90*\nG01X0Y0D02*\n\
X10000D01*\nY10000*\nM02*\n",
        )],
        script: b"load top gerber a.gbr\nwrite top t1.gbr\n",
        replies: b"ok 2\nok 100\n",
        written: &[(
            "t1.gbr",
            b"%FSLAX46Y46*%\n%MOMM*%\nG01*\nG75*\n%ADD10C,2.540000*%\nD10*\nX25400000Y0D01*\n\
X25400000Y25400000D01*\nM02*\n",
        )],
        ..WHOLE
    },
];
