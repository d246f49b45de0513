//! Edits, undo and redo, and tiles.

use super::{Picture, Row, WHOLE};

/// The rows.
pub fn rows() -> &'static [Row] {
    ROWS
}

const ROWS: &[Row] = &[
    Row {
        shows: "Depth 2: the third undo is refused; a deletion empties the redo list; the plots follow.",
        depth: 2,
        files: &[(
            "a.gbr",
            b"%FSLAX36Y36*%\n%MOMM*%\n%ADD10C,1*%\nD10*\nX0Y0D03*\nM02*\n",
        )],
        script: b"load top gerber a.gbr\nwindow -1000000 -1000000 500000 4 4\nmove top 0 500000 0\n\
move top 0 500000 0\nmove top 0 500000 0\nundo\nundo\nundo\nplot top p1.pbm\ndelete top 0\nredo\n\
plot top p2.pbm\nundo\nplot top p3.pbm\nlist\n",
        replies: b"ok 1\nok\nok\nok\nok\nok\nok\nrefused 70\nok 1\nok\nrefused 71\nok 1\nok\nok 1\nok 1 0 1\n",
        written: &[
            ("p1.pbm", b"P4\n4 4\n\x00\x30\x30\x00"),
            ("p2.pbm", b"P4\n4 4\n\x00\x00\x00\x00"),
            ("p3.pbm", b"P4\n4 4\n\x00\x30\x30\x00"),
        ],
        ..WHOLE
    },
    Row {
        shows: "With depth 2 a third edit drops the oldest undo entry; a new edit empties the redo list.",
        depth: 2,
        files: &[(
            "a.gbr",
            b"%FSLAX36Y36*%\n%MOMM*%\n%ADD10C,1*%\nD10*\nX0Y0D03*\nM02*\n",
        )],
        script: b"load top gerber a.gbr\nmove top 0 1000000 0\nmove top 0 1000000 0\nmove top 0 1000000 0\n\
undo\nundo\nundo\nredo\nredo\npolarity top 0 clear\nredo\nlist\nwrite top t1.gbr\n",
        replies: b"ok 1\nok\nok\nok\nok\nok\nrefused 70\nok\nok\nok\nrefused 71\nok 1 2 0\nok 83\n",
        written: &[(
            "t1.gbr",
            b"%FSLAX46Y46*%\n%MOMM*%\nG01*\nG75*\n%ADD10C,1.000000*%\n%LPC*%\nD10*\nX3000000Y0D03*\n\
M02*\n",
        )],
        ..WHOLE
    },
    Row {
        shows: "Four edits in a group, once aborted and once ended, then undone and done again as one.",
        files: &[(
            "a.gbr",
            b"%FSLAX36Y36*%\n%MOMM*%\n%ADD10C,1*%\n%ADD11R,2X1*%\nD10*\nX0Y0D03*\nX2000000Y0D02*\n\
X4000000Y0D01*\nD11*\nX0Y2000000D03*\nM02*\n",
        )],
        script: b"load top gerber a.gbr\nwrite top t1.gbr\nbegin\ndelete top 0\n\
insert top 0 flash 11 1000000 1000000 r90 dark\nreorder top 0 2\naperture top 1 10\nundo\nabort\n\
write top t2.gbr\nbegin\ndelete top 0\ninsert top 0 flash 11 1000000 1000000 r90 dark\nreorder top 0 2\n\
aperture top 1 10\nend\nwrite top t3.gbr\nundo\nwrite top t4.gbr\nredo\nwrite top t5.gbr\n",
        replies: b"ok 3\nok 148\nok\nok\nok\nok\nok\nrefused 72\nok\nok 148\nok\nok\nok\nok\nok\nok\nok 168\n\
ok\nok 148\nok\nok 168\n",
        written: &[
            (
                "t1.gbr",
                b"%FSLAX46Y46*%\n%MOMM*%\nG01*\nG75*\n%ADD10C,1.000000*%\n%ADD11R,2.000000X1.000000*%\n\
D10*\nX0Y0D03*\nX2000000Y0D02*\nX4000000Y0D01*\nD11*\nX0Y2000000D03*\nM02*\n",
            ),
            (
                "t2.gbr",
                b"%FSLAX46Y46*%\n%MOMM*%\nG01*\nG75*\n%ADD10C,1.000000*%\n%ADD11R,2.000000X1.000000*%\n\
D10*\nX0Y0D03*\nX2000000Y0D02*\nX4000000Y0D01*\nD11*\nX0Y2000000D03*\nM02*\n",
            ),
            (
                "t3.gbr",
                b"%FSLAX46Y46*%\n%MOMM*%\nG01*\nG75*\n%ADD10C,1.000000*%\n%ADD11R,2.000000X1.000000*%\n\
D10*\nX2000000Y0D02*\nX4000000Y0D01*\nX0Y2000000D03*\n%LR90*%\nD11*\nX1000000Y1000000D03*\nM02*\n",
            ),
            (
                "t4.gbr",
                b"%FSLAX46Y46*%\n%MOMM*%\nG01*\nG75*\n%ADD10C,1.000000*%\n%ADD11R,2.000000X1.000000*%\n\
D10*\nX0Y0D03*\nX2000000Y0D02*\nX4000000Y0D01*\nD11*\nX0Y2000000D03*\nM02*\n",
            ),
            (
                "t5.gbr",
                b"%FSLAX46Y46*%\n%MOMM*%\nG01*\nG75*\n%ADD10C,1.000000*%\n%ADD11R,2.000000X1.000000*%\n\
D10*\nX2000000Y0D02*\nX4000000Y0D01*\nX0Y2000000D03*\n%LR90*%\nD11*\nX1000000Y1000000D03*\nM02*\n",
            ),
        ],
        ..WHOLE
    },
    Row {
        shows: "Four edits in a group, aborted, ended, undone and done again: the plots come back with the documents.",
        files: &[(
            "a.gbr",
            b"%FSLAX36Y36*%\n%MOMM*%\n%ADD10C,1*%\n%ADD11R,2X1*%\nD10*\nX0Y0D03*\nX2000000Y0D02*\n\
X4000000Y0D01*\nD11*\nX0Y2000000D03*\nM02*\n",
        )],
        script: b"load top gerber a.gbr\nwindow -1750000 -1750000 500000 13 10\nplot top p1.pbm\nbegin\n\
delete top 0\ninsert top 0 flash 11 1000000 1000000 r90 dark\nreorder top 0 2\naperture top 1 10\nabort\n\
plot top p2.pbm\nbegin\ndelete top 0\ninsert top 0 flash 11 1000000 1000000 r90 dark\nreorder top 0 2\n\
aperture top 1 10\nend\nplot top p3.pbm\nundo\nplot top p4.pbm\nredo\nplot top p5.pbm\n",
        replies: b"ok 3\nok\nok 1\nok\nok\nok\nok\nok\nok\nok 1\nok\nok\nok\nok\nok\nok\nok 1\nok\nok 1\nok\n\
ok 1\n",
        written: &[
            (
                "p1.pbm",
                b"P4\n13 10\n\x00\x00\x7c\x00\x7c\x00\x7c\x00\x00\x00\x11\xf0\x3b\xf8\x11\xf0\x00\x00\x00\x00",
            ),
            (
                "p2.pbm",
                b"P4\n13 10\n\x00\x00\x7c\x00\x7c\x00\x7c\x00\x00\x00\x11\xf0\x3b\xf8\x11\xf0\x00\x00\x00\x00",
            ),
            (
                "p3.pbm",
                b"P4\n13 10\n\x00\x00\x10\x00\x3e\x00\x1e\x00\x0e\x00\x0f\xf0\x0f\xf8\x01\xf0\x00\x00\x00\x00",
            ),
            (
                "p4.pbm",
                b"P4\n13 10\n\x00\x00\x7c\x00\x7c\x00\x7c\x00\x00\x00\x11\xf0\x3b\xf8\x11\xf0\x00\x00\x00\x00",
            ),
            (
                "p5.pbm",
                b"P4\n13 10\n\x00\x00\x10\x00\x3e\x00\x1e\x00\x0e\x00\x0f\xf0\x0f\xf8\x01\xf0\x00\x00\x00\x00",
            ),
        ],
        ..WHOLE
    },
    Row {
        shows: "An arc with a rectangle and an arc of radius 0 are refused; a full circle and a region with an arc are inserted and written.",
        files: &[(
            "a.gbr",
            b"%FSLAX36Y36*%\n%MOMM*%\n%ADD10C,1*%\n%ADD11R,2X1*%\nD10*\nX0Y0D03*\nX2000000Y0D02*\n\
X4000000Y0D01*\nD11*\nX0Y2000000D03*\nM02*\n",
        )],
        script: b"load top gerber a.gbr\ninsert top 3 arc 11 1000000 0 0 1000000 0 0 ccw dark\n\
insert top 3 arc 10 0 0 1000000 0 0 0 cw dark\ninsert top 3 arc 10 1000000 0 0 1000000 0 0 ccw dark\n\
insert top 4 region dark 0 0 l 1000000 0 ccw 0 1000000 0 0\naperture top 4 10\nwrite top t1.gbr\n",
        replies: b"ok 3\nrefused 63\nrefused 67\nok\nok\nrefused 64\nok 269\n",
        written: &[(
            "t1.gbr",
            b"%FSLAX46Y46*%\n%MOMM*%\nG01*\nG75*\n%ADD10C,1.000000*%\n%ADD11R,2.000000X1.000000*%\n\
D10*\nX0Y0D03*\nX2000000Y0D02*\nX4000000Y0D01*\nD11*\nX0Y2000000D03*\nD10*\nG03*\nX1000000Y0D02*\n\
X0Y1000000I-1000000J0D01*\nG36*\nX0Y0D02*\nG01*\nX1000000Y0D01*\nG03*\nX0Y1000000I-1000000J0D01*\nG37*\nM02*\n",
        )],
        ..WHOLE
    },
    Row {
        shows: "File attributes are kept in order, set and dropped; undo puts a dropped one back in its place; no tile is touched.",
        files: &[(
            "a.gbr",
            b"%FSLAX36Y36*%\n%MOMM*%\n%TF.FileFunction,Copper,L1,Top*%\n%ADD10C,1*%\n%TF.Part,Single*%\n\
D10*\nX0Y0D03*\nM02*\n",
        )],
        script: b"load top gerber a.gbr\nwindow -500000 -500000 10000 64 64\nredraw 9\nsetattr top .Part Array\n\
dropattr top .FileFunction\ndropattr top .FileFunction\nredraw 9\nundo\nwrite top t1.gbr\nlist\nundo\n\
write top t2.gbr\n",
        replies: b"ok 1\nok\nok 1\nok\nok\nrefused 74\nok 0\nok\nok 120\nok 1 1 1\nok\nok 121\n",
        written: &[
            (
                "t1.gbr",
                b"%FSLAX46Y46*%\n%MOMM*%\n%TF.FileFunction,Copper,L1,Top*%\n%TF.Part,Array*%\nG01*\nG75*\n\
%ADD10C,1.000000*%\nD10*\nX0Y0D03*\nM02*\n",
            ),
            (
                "t2.gbr",
                b"%FSLAX46Y46*%\n%MOMM*%\n%TF.FileFunction,Copper,L1,Top*%\n%TF.Part,Single*%\nG01*\nG75*\n\
%ADD10C,1.000000*%\nD10*\nX0Y0D03*\nM02*\n",
            ),
        ],
        ..WHOLE
    },
    Row {
        shows: "A move makes dirty the tile that the flash leaves and the one that it comes to, and no other; redraws by one tile and by all.",
        files: &[(
            "a.gbr",
            b"%FSLAX36Y36*%\n%MOMM*%\n%ADD10C,0.1*%\nD10*\nX320000Y320000D03*\nM02*\n",
        )],
        script: b"load top gerber a.gbr\nwindow 0 0 10000 256 256\nredraw 100\nmove top 0 1920000 1920000\n\
redraw 1\nplot top p1.pbm\nundo\nredraw 100\nredraw 100\n",
        replies: b"ok 1\nok\nok 16\nok\nok 1\nok 1\nok\nok 2\nok 0\n",
        pictures: &[Picture {
            path: "p1.pbm",
            top: 27,
            left: 27,
            rows: &[
                &[0x03, 0xc0],
                &[0x0f, 0xf0],
                &[0x0f, 0xf0],
                &[0x1f, 0xf8],
                &[0x1f, 0xf8],
                &[0x1f, 0xf8],
                &[0x1f, 0xf8],
                &[0x0f, 0xf0],
                &[0x0f, 0xf0],
                &[0x03, 0xc0],
            ],
        }],
        ..WHOLE
    },
    Row {
        shows: "Redraws in a group, after an abort, and after a group over two layers.",
        files: &[
            (
                "a.gbr",
                b"%FSLAX36Y36*%\n%MOMM*%\n%ADD10C,0.1*%\nD10*\nX320000Y320000D03*\nM02*\n",
            ),
            (
                "b.gbr",
                b"%FSLAX36Y36*%\n%MOMM*%\n%ADD10C,0.1*%\nD10*\nX320000Y320000D03*\nM02*\n",
            ),
        ],
        script: b"load top gerber a.gbr\nwindow 0 0 10000 256 256\nredraw 100\nmove top 0 1920000 1920000\n\
redraw 1\nplot top p1.pbm\nundo\nredraw 100\nredraw 100\nbegin\ndelete top 0\nredraw 100\nabort\n\
plot top p2.pbm\nundo\nlist\nload b gerber b.gbr\nredraw 100\nbegin\ndelete top 0\ndelete b 0\nend\nredraw 100\n\
undo\nredraw 100\n",
        replies: b"ok 1\nok\nok 16\nok\nok 1\nok 1\nok\nok 2\nok 0\nok\nok\nok 1\nok\nok 1\nrefused 70\n\
ok 1 0 0\nok 1\nok 16\nok\nok\nok\nok\nok 2\nok\nok 2\n",
        pictures: &[
            Picture {
                path: "p1.pbm",
                top: 27,
                left: 27,
                rows: &[
                    &[0x03, 0xc0],
                    &[0x0f, 0xf0],
                    &[0x0f, 0xf0],
                    &[0x1f, 0xf8],
                    &[0x1f, 0xf8],
                    &[0x1f, 0xf8],
                    &[0x1f, 0xf8],
                    &[0x0f, 0xf0],
                    &[0x0f, 0xf0],
                    &[0x03, 0xc0],
                ],
            },
            Picture {
                path: "p2.pbm",
                top: 219,
                left: 3,
                rows: &[
                    &[0x03, 0xc0],
                    &[0x0f, 0xf0],
                    &[0x0f, 0xf0],
                    &[0x1f, 0xf8],
                    &[0x1f, 0xf8],
                    &[0x1f, 0xf8],
                    &[0x1f, 0xf8],
                    &[0x0f, 0xf0],
                    &[0x0f, 0xf0],
                    &[0x03, 0xc0],
                ],
            },
        ],
        ..WHOLE
    },
];
