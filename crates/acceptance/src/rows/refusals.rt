//! Files and lines that are refused.

use super::{Row, WHOLE};

/// The rows.
pub fn rows() -> &'static [Row] {
    ROWS
}

const ROWS: &[Row] = &[
    Row {
        shows: "A polygon template and a turn of 45 degrees are refused at their place, and nothing is loaded.",
        files: &[
            ("a.gbr", b"%FSLAX36Y36*%\n%MOMM*%\n%ADD10P,1X6*%\nM02*\n"),
            ("b.gbr", b"%FSLAX36Y36*%\n%MOMM*%\n%LR45*%\nM02*\n"),
        ],
        script: b"load top gerber a.gbr\nlist\nload top gerber b.gbr\nlist\n",
        replies: b"refused 11 22\nok 0 0 0\nrefused 13 22\nok 0 0 0\n",
        ..WHOLE
    },
    Row {
        shows: "Four refused files, one of them for an arc that is not under G75; after each the station is empty.",
        files: &[
            ("a.gbr", b"%FSLAX36Y36*%\n%MOMM*%\n%ADD10P,1X6*%\nM02*\n"),
            ("b.gbr", b"%FSLAX36Y36*%\n%MOMM*%\n%LR45*%\nM02*\n"),
            (
                "c.gbr",
                b"%FSLAX36Y36*%\n%MOMM*%\n%ADD10C,0.2*%\nD10*\nX1000000Y0D02*\nG03*\n\
X0Y1000000I-1000000J0D01*\nM02*\n",
            ),
            (
                "d.gbr",
                b"%FSLAX36Y36*%\n%MOMM*%\n%ADD10C,1*%\nD10*\nX0Y0D03*\n",
            ),
        ],
        script: b"load top gerber a.gbr\nlist\nload top gerber b.gbr\nlist\nload top gerber c.gbr\nlist\n\
load top gerber d.gbr\nlist\n",
        replies: b"refused 11 22\nok 0 0 0\nrefused 13 22\nok 0 0 0\nrefused 17 61\nok 0 0 0\nrefused 26 48\n\
ok 0 0 0\n",
        ..WHOLE
    },
    Row {
        shows: "A file cut before its end is refused at its length.",
        files: &[(
            "a.gbr",
            b"%FSLAX36Y36*%\n%MOMM*%\n%ADD10C,1*%\nD10*\nX0Y0D03*\n",
        )],
        script: b"load top gerber a.gbr\n",
        replies: b"refused 26 48\n",
        ..WHOLE
    },
    Row {
        shows: "Six files, each refused with its number at its place.",
        files: &[
            ("a.gbr", b"%FSLAX36Y36*%\n%MOMM*%\nX0Y0D03*\nM02*\n"),
            ("b.gbr", b"%FSLAX36Y36*%\n%MOMM*%\nG36*\nX0Y0D03*\nM02*\n"),
            ("c.gbr", b"%ADD10C,1*%\nM02*\n"),
            ("d.gbr", b"%FSLAX36Y36*%\n%MOMM*%\n%FSLAX46Y46*%\nM02*\n"),
            ("e.gbr", b"%FSLAX36Y36*%\n%MOMM*%\nG91*\nM02*\n"),
            ("f.gbr", b"%FSLAX36Y36*%\n%MOMM*%\n%ABD10*%\nM02*\n"),
        ],
        script: b"load top gerber a.gbr\nload top gerber b.gbr\nload top gerber c.gbr\nload top gerber d.gbr\n\
load top gerber e.gbr\nload top gerber f.gbr\n",
        replies: b"refused 15 22\nrefused 19 27\nrefused 6 0\nrefused 7 22\nrefused 28 22\nrefused 22 31\n",
        ..WHOLE
    },
    Row {
        shows: "Nine open blocks are one too many; a repeat of 4,000,000 leaves is read, one of 4,002,000 is not.",
        files: &[
            (
                "a.gbr",
                b"%FSLAX36Y36*%\n%MOMM*%\n%ABD10*%\n%ABD11*%\n%ABD12*%\n%ABD13*%\n%ABD14*%\n%ABD15*%\n\
%ABD16*%\n%ABD17*%\n%ABD18*%\n",
            ),
            (
                "b.gbr",
                b"%FSLAX36Y36*%\n%MOMM*%\n%ADD10C,0.1*%\nD10*\n%SRX2001Y2000I0J0*%\nX0Y0D03*\n%SR*%\nM02*\n",
            ),
            (
                "c.gbr",
                b"%FSLAX36Y36*%\n%MOMM*%\n%ADD10C,0.1*%\nD10*\n%SRX2000Y2000I0J0*%\nX0Y0D03*\n%SR*%\nM02*\n",
            ),
        ],
        script: b"load top gerber a.gbr\nload top gerber b.gbr\nload top gerber c.gbr\n",
        replies: b"refused 25 94\nrefused 25 70\nok 1\n",
        ..WHOLE
    },
    Row {
        shows: "One refusal after the other, from an empty station on.",
        files: &[(
            "a.gbr",
            b"%FSLAX36Y36*%\n%MOMM*%\n%ADD10C,1*%\nD10*\nX0Y0D03*\nM02*\n",
        )],
        script: b"plot top x\nload top gerber a.gbr\nplot top x\nredraw 5\nload top gerber a.gbr\n\
move top 1 0 0\ninsert top 2 flash 10 0 0 r0 dark\naperture top 0 11\ntool top 0 1\nmove top 0 1000000000 0\n\
window 0 0 0 1 1\nbegin\nload b gerber a.gbr\nbegin\nend\nend\nabort\nundo\nfrob\nload b gerber none\n",
        replies: b"refused 60\nok 1\nrefused 84\nrefused 84\nrefused 83\nrefused 61\nrefused 61\nrefused 62\n\
refused 68\nrefused 65\nrefused 50\nok\nrefused 72\nrefused 72\nok\nrefused 73\nrefused 73\nrefused 70\n\
refused 80\nrefused 82\n",
        ..WHOLE
    },
];
