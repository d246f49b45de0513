//! Drill layers.

use super::{Row, WHOLE};

/// The rows.
pub fn rows() -> &'static [Row] {
    ROWS
}

const ROWS: &[Row] = &[
    Row {
        shows: "A drill file with a hit and a rout: its text, two places, and a coordinate without a point refused.",
        files: &[
            (
                "a.drl",
                b"M48\n; DRILL file\nFMAT,2\nMETRIC\nT1C0.800\nT2C1.000\n%\nG90\nG05\nT1\nX1.0Y1.0\nT2\n\
G00X3.0Y1.0\nM15\nG01X5.0Y1.0\nG01X5.0Y3.0\nM16\nG05\nT0\nM30\n",
            ),
            ("b.drl", b"M48\nMETRIC\nT1C0.8\n%\nT1\nX10Y10\nM30\n"),
        ],
        script: b"load top drill a.drl\nwrite top t1.drl\nwindow 5290000 590000 20000 1 1\nplot top p1.pbm\n\
window 1440000 990000 20000 1 1\nplot top p2.pbm\nload b drill b.drl\n",
        replies: b"ok 2\nok 144\nok\nok 1\nok\nok 1\nrefused 45 23\n",
        written: &[
            ("p1.pbm", b"P4\n1 1\n\x80"),
            ("p2.pbm", b"P4\n1 1\n\x00"),
            (
                "t1.drl",
                b"M48\nMETRIC\nT1C0.800000\nT2C1.000000\n%\nG05\nT1\nX1.000000Y1.000000\nT2\n\
G00X3.000000Y1.000000\nM15\nG01X5.000000Y1.000000\nG01X5.000000Y3.000000\nM16\nM30\n",
            ),
        ],
        ..WHOLE
    },
    Row {
        shows: "A tool becomes wider and, by undo, narrow again; picture and text follow.",
        files: &[
            (
                "a.drl",
                b"M48\n; DRILL file\nFMAT,2\nMETRIC\nT1C0.800\nT2C1.000\n%\nG90\nG05\nT1\nX1.0Y1.0\nT2\n\
G00X3.0Y1.0\nM15\nG01X5.0Y1.0\nG01X5.0Y3.0\nM16\nG05\nT0\nM30\n",
            ),
            ("b.drl", b"M48\nMETRIC\nT1C0.8\n%\nT1\nX10Y10\nM30\n"),
        ],
        script: b"load top drill a.drl\nwrite top t1.drl\nwindow 5290000 590000 20000 1 1\nplot top p1.pbm\n\
window 1440000 990000 20000 1 1\nplot top p2.pbm\ndiameter top 1 1000000\nwindow 1440000 990000 20000 1 1\n\
plot top p3.pbm\nundo\nwindow 1440000 990000 20000 1 1\nplot top p4.pbm\nwrite top t2.drl\nload b drill b.drl\n",
        replies: b"ok 2\nok 144\nok\nok 1\nok\nok 1\nok\nok\nok 1\nok\nok\nok 1\nok 144\nrefused 45 23\n",
        written: &[
            ("p1.pbm", b"P4\n1 1\n\x80"),
            ("p2.pbm", b"P4\n1 1\n\x00"),
            ("p3.pbm", b"P4\n1 1\n\x80"),
            ("p4.pbm", b"P4\n1 1\n\x00"),
            (
                "t1.drl",
                b"M48\nMETRIC\nT1C0.800000\nT2C1.000000\n%\nG05\nT1\nX1.000000Y1.000000\nT2\n\
G00X3.000000Y1.000000\nM15\nG01X5.000000Y1.000000\nG01X5.000000Y3.000000\nM16\nM30\n",
            ),
            (
                "t2.drl",
                b"M48\nMETRIC\nT1C0.800000\nT2C1.000000\n%\nG05\nT1\nX1.000000Y1.000000\nT2\n\
G00X3.000000Y1.000000\nM15\nG01X5.000000Y1.000000\nG01X5.000000Y3.000000\nM16\nM30\n",
            ),
        ],
        ..WHOLE
    },
    Row {
        shows: "Edits of drill items and their refusals, and the text after them.",
        files: &[(
            "a.drl",
            b"M48\n; DRILL file\nFMAT,2\nMETRIC\nT1C0.800\nT2C1.000\n%\nG90\nG05\nT1\nX1.0Y1.0\nT2\n\
G00X3.0Y1.0\nM15\nG01X5.0Y1.0\nG01X5.0Y3.0\nM16\nG05\nT0\nM30\n",
        )],
        script: b"load top drill a.drl\ntool top 0 2\ntool top 0 3\npolarity top 0 clear\ndiameter top 2 0\n\
insert top 2 hit 1 0 0\ninsert top 0 rout 1 0 0\nwrite top t1.drl\n",
        replies: b"ok 2\nok\nrefused 66\nrefused 68\nrefused 67\nok\nok\nok 204\n",
        written: &[(
            "t1.drl",
            b"M48\nMETRIC\nT1C0.800000\nT2C1.000000\n%\nG05\nT1\nG00X0.000000Y0.000000\nM15\nM16\nT2\n\
G05\nX1.000000Y1.000000\nG00X3.000000Y1.000000\nM15\nG01X5.000000Y1.000000\nG01X5.000000Y3.000000\nM16\nT1\n\
G05\nX0.000000Y0.000000\nM30\n",
        )],
        ..WHOLE
    },
    Row {
        shows: "A slot of a drill file is a rout of two points; without a tool it is refused.",
        files: &[
            (
                "a.drl",
                b"M48\nMETRIC\nT1C1.0\n%\nG05\nT1\nX1.0Y1.0G85X3.0Y1.0\nX5.0Y1.0\nM30\n",
            ),
            (
                "b.drl",
                b"M48\nMETRIC\nT1C1.0\n%\nX1.0Y1.0G85X3.0Y1.0\nM30\n",
            ),
        ],
        script: b"load top drill a.drl\nwindow 1990000 1490000 20000 1 1\nplot top p1.pbm\n\
window 1990000 1490001 20000 1 1\nplot top p2.pbm\nwrite top t1.drl\nload b drill b.drl\n",
        replies: b"ok 2\nok\nok 1\nok\nok 1\nok 111\nrefused 44 20\n",
        written: &[
            ("p1.pbm", b"P4\n1 1\n\x80"),
            ("p2.pbm", b"P4\n1 1\n\x00"),
            (
                "t1.drl",
                b"M48\nMETRIC\nT1C1.000000\n%\nG05\nT1\nG00X1.000000Y1.000000\nM15\nG01X3.000000Y1.000000\n\
M16\nG05\nX5.000000Y1.000000\nM30\n",
            ),
        ],
        ..WHOLE
    },
];
