//! Draws and arcs.

use super::{Row, WHOLE};

/// The rows.
pub fn rows() -> &'static [Row] {
    ROWS
}

const ROWS: &[Row] = &[
    Row {
        shows: "A counterclockwise quarter circle drawn with a round pen: its exact edge, and nothing outside the sweep.",
        files: &[(
            "a.gbr",
            b"%FSLAX36Y36*%\n%MOMM*%\n%ADD10C,0.2*%\nD10*\nG75*\nX1000000Y0D02*\nG03*\n\
X0Y1000000I-1000000J0D01*\nM02*\n",
        )],
        script: b"load top gerber a.gbr\nwindow 530000 710000 20000 1 1\nplot top p1.pbm\n\
window 530000 709999 20000 1 1\nplot top p2.pbm\nwindow 890000 -10000 20000 1 1\nplot top p3.pbm\n\
window -710000 690000 20000 1 1\nplot top p4.pbm\nwindow -10000 1090001 20000 1 1\nplot top p5.pbm\n",
        replies: b"ok 1\nok\nok 1\nok\nok 1\nok\nok 1\nok\nok 1\nok\nok 1\n",
        written: &[
            ("p1.pbm", b"P4\n1 1\n\x80"),
            ("p2.pbm", b"P4\n1 1\n\x00"),
            ("p3.pbm", b"P4\n1 1\n\x80"),
            ("p4.pbm", b"P4\n1 1\n\x00"),
            ("p5.pbm", b"P4\n1 1\n\x00"),
        ],
        ..WHOLE
    },
    Row {
        shows: "An arc whose end lies off the circle: the stroke keeps to the circle, and the end has its disc.",
        files: &[(
            "a.gbr",
            b"%FSLAX36Y36*%\n%MOMM*%\n%ADD10C,0.2*%\nD10*\nG75*\nX1000000Y0D02*\nG03*\n\
X0Y1000001I-1000000J0D01*\nM02*\n",
        )],
        script: b"load top gerber a.gbr\nwindow 530000 710000 20000 1 1\nplot top p1.pbm\n\
window -10000 1090001 20000 1 1\nplot top p2.pbm\n",
        replies: b"ok 1\nok\nok 1\nok\nok 1\n",
        written: &[("p1.pbm", b"P4\n1 1\n\x80"), ("p2.pbm", b"P4\n1 1\n\x80")],
        ..WHOLE
    },
    Row {
        shows: "An arc whose end is its start is a full circle.",
        files: &[(
            "a.gbr",
            b"%FSLAX36Y36*%\n%MOMM*%\n%ADD10C,0.2*%\nD10*\nG75*\nX1000000Y0D02*\nG03*\n\
X1000000Y0I-1000000J0D01*\nM02*\n",
        )],
        script: b"load top gerber a.gbr\nwindow -550000 -730000 20000 1 1\nplot top p1.pbm\n",
        replies: b"ok 1\nok\nok 1\n",
        written: &[("p1.pbm", b"P4\n1 1\n\x80")],
        ..WHOLE
    },
    Row {
        shows: "A pen wider than the arc that it draws: places outside the sweep are covered by the end discs alone.",
        files: &[(
            "a.gbr",
            b"%FSLAX36Y36*%\n%MOMM*%\n%ADD10C,1*%\nD10*\nG75*\nX100000Y0D02*\nG03*\n\
X0Y100000I-100000J0D01*\nM02*\n",
        )],
        script: b"load top gerber a.gbr\nwindow -310000 -310000 20000 1 1\nplot top p1.pbm\n\
window -320000 -310000 20000 1 1\nplot top p2.pbm\n",
        replies: b"ok 1\nok\nok 1\nok\nok 1\n",
        written: &[("p1.pbm", b"P4\n1 1\n\x80"), ("p2.pbm", b"P4\n1 1\n\x00")],
        ..WHOLE
    },
    Row {
        shows: "A draw from one corner of the board to the other, plotted at its very ends; a window and a point past the board.",
        files: &[
            (
                "a.gbr",
                b"%FSLAX46Y46*%\n%MOMM*%\n%ADD10C,1*%\nD10*\nX-999999999Y-999999999D02*\n\
X999999999Y999999999D01*\nM02*\n",
            ),
            (
                "b.gbr",
                b"%FSLAX46Y46*%\n%MOMM*%\n%ADD10C,1*%\nD10*\nX-999999999Y-999999999D02*\n\
X1000000000Y999999999D01*\nM02*\n",
            ),
        ],
        script: b"load top gerber a.gbr\nwindow 999999999 999999999 1 1 1\nplot top p1.pbm\n\
window -999999999 999999998 1 1 1\nplot top p2.pbm\nwindow 999999999 0 2 1 1\nload b gerber b.gbr\n",
        replies: b"ok 1\nok\nok 1\nok\nok 1\nrefused 50\nrefused 23 66\n",
        written: &[("p1.pbm", b"P4\n1 1\n\x80"), ("p2.pbm", b"P4\n1 1\n\x00")],
        ..WHOLE
    },
    Row {
        shows: "A straight draw with a rectangle: its text, and places on and just off its edges.",
        files: &[(
            "a.gbr",
            b"%FSLAX36Y36*%\n%MOMM*%\n%ADD10R,0.4X0.2*%\nD10*\nX0Y0D02*\nX1000000Y1000000D01*\nM02*\n",
        )],
        script: b"load top gerber a.gbr\nwrite top t1.gbr\nwindow 790000 490000 20000 1 1\nplot top p1.pbm\n\
window -210000 -110000 20000 1 1\nplot top p2.pbm\nwindow -210000 90000 20000 1 1\nplot top p3.pbm\n\
window 790001 490000 20000 1 1\nplot top p4.pbm\nwindow -210000 90001 20000 1 1\nplot top p5.pbm\n\
window 1190001 1090000 20000 1 1\nplot top p6.pbm\nwindow -110000 -210000 20000 1 1\nplot top p7.pbm\n",
        replies: b"ok 1\nok 91\nok\nok 1\nok\nok 1\nok\nok 1\nok\nok 1\nok\nok 1\nok\nok 1\nok\nok 1\n",
        written: &[
            ("p1.pbm", b"P4\n1 1\n\x80"),
            ("p2.pbm", b"P4\n1 1\n\x80"),
            ("p3.pbm", b"P4\n1 1\n\x80"),
            ("p4.pbm", b"P4\n1 1\n\x00"),
            ("p5.pbm", b"P4\n1 1\n\x00"),
            ("p6.pbm", b"P4\n1 1\n\x00"),
            ("p7.pbm", b"P4\n1 1\n\x00"),
            (
                "t1.gbr",
                b"%FSLAX46Y46*%\n%MOMM*%\nG01*\nG75*\n%ADD10R,0.400000X0.200000*%\nD10*\n\
X1000000Y1000000D01*\nM02*\n",
            ),
        ],
        ..WHOLE
    },
    Row {
        shows: "A draw with a rectangle turned by 90 degrees; an arc with a rectangle is refused.",
        files: &[
            (
                "a.gbr",
                b"%FSLAX36Y36*%\n%MOMM*%\n%ADD10R,0.4X0.2*%\n%LR90*%\nD10*\nX0Y0D02*\nX1000000Y1000000D01*\n\
M02*\n",
            ),
            (
                "b.gbr",
                b"%FSLAX36Y36*%\n%MOMM*%\n%ADD10R,0.4X0.2*%\nD10*\nG75*\nG03X0Y1000000I0J500000D01*\nM02*\n",
            ),
        ],
        script: b"load top gerber a.gbr\nwindow -210000 -110000 20000 1 1\nplot top p1.pbm\n\
window -110000 -210000 20000 1 1\nplot top p2.pbm\nload b gerber b.gbr\n",
        replies: b"ok 1\nok\nok 1\nok\nok 1\nrefused 16 50\n",
        written: &[("p1.pbm", b"P4\n1 1\n\x00"), ("p2.pbm", b"P4\n1 1\n\x80")],
        ..WHOLE
    },
];
