//! Files that are layers.

use super::File;

pub const LAYERS: &[File] = &[
    // nothing but an end
    File {
        text: b"M02*",
        entries: 0,
        items: 0,
        black: &[],
        white: &[(0, 0)],
    },
    // a disc
    File {
        text: b"%FSLAX36Y36*%\n%MOMM*%\n%ADD10C,1*%\nD10*\nX0Y0D03*\nM02*\n",
        entries: 1,
        items: 1,
        black: &[(1_000_000, 0), (600_000, -800_000)],
        white: &[(1_000_001, 0), (600_001, -800_000)],
    },
    // discs in inches, at (25, 51) and (76, 0) nm
    File {
        text: b"%FSLAX26Y26*%%MOIN*%%ADD10C,0.1*%D10*X1Y2D03*X3Y0D03*M02*",
        entries: 1,
        items: 2,
        black: &[(-2_539_950, 102), (2_540_152, 0)],
        white: &[(-2_539_951, 102), (2_540_153, 0)],
    },
    // settings of the same values, numbers at their limits, code numbers by value, and what stands behind the end
    File {
        text: b"%FSLAX66Y66*%%MOMM*%%FSLAX66Y66*%%MOMM*%%ADD2147483647C,200*%%ADD10C,0*%\
D2147483647*X999999999Y-999999999D3*Y+0D03*D010*X-1D03*M02*%ADD10",
        entries: 2,
        items: 3,
        black: &[(1_799_999_998, -1_999_999_998), (1_799_999_998, 0)],
        white: &[(1_799_999_997, 0), (-2, 0)],
    },
    // a square region: of its corners only the lowest and leftmost is inside
    File {
        text: b"%FSLAX36Y36*%\n%MOMM*%\nG36*\nX0Y0D02*\nG01*\nX1000000D01*\nY1000000D01*\nX0D01*\nY0D01*\nG37*\nM02*\n",
        entries: 0,
        items: 1,
        black: &[(0, 0)],
        white: &[(2_000_000, 0), (0, 2_000_000), (2_000_000, 2_000_000)],
    },
    // half a disc
    File {
        text: b"%FSLAX36Y36*%\n%MOMM*%\nG75*\nG36*\nX1000000Y0D02*\nG03*\nX-1000000I-1000000D01*\nG37*\nM02*\n",
        entries: 0,
        items: 1,
        black: &[(-1_200_000, 1_600_000), (0, 0), (-2_000_000, 0)],
        white: &[(1_200_000, 1_600_000), (2_000_000, 0)],
    },
    // a quarter of a ring, and places exactly on its edge
    File {
        text: b"%FSLAX36Y36*%\n%MOMM*%\n%ADD10C,0.2*%\nD10*\nG75*\nX1000000Y0D02*\nG03*\n\
X0Y1000000I-1000000J0D01*\nM02*\n",
        entries: 1,
        items: 1,
        black: &[(1_080_000, 1_440_000), (1_800_000, 0)],
        white: &[
            (1_080_000, 1_439_998),
            (-1_400_000, 1_400_000),
            (0, 2_200_002),
        ],
    },
    // an end off the circle
    File {
        text: b"%FSLAX36Y36*%\n%MOMM*%\n%ADD10C,0.2*%\nD10*\nG75*\nX1000000Y0D02*\nG03*\n\
X0Y1000001I-1000000J0D01*\nM02*\n",
        entries: 1,
        items: 1,
        black: &[(1_080_000, 1_440_000), (0, 2_200_002)],
        white: &[],
    },
    // a full circle
    File {
        text: b"%FSLAX36Y36*%\n%MOMM*%\n%ADD10C,0.2*%\nD10*\nG75*\nX1000000Y0D02*\nG03*\n\
X1000000Y0I-1000000J0D01*\nM02*\n",
        entries: 1,
        items: 1,
        black: &[(-1_080_000, -1_440_000)],
        white: &[(0, 0)],
    },
    // a clear disc in a region, with a hole through which the region stays black
    File {
        text: b"%FSLAX36Y36*%\n%MOMM*%\n%ADD10C,2X1*%\nG36*\nX0Y0D02*\nX4000000D01*\nY4000000D01*\nX0D01*\nY0D01*\n\
G37*\n%LPC*%\nD10*\nX2000000Y2000000D03*\nM02*\n",
        entries: 1,
        items: 2,
        black: &[(4_000_000, 4_000_000), (7_000_000, 4_000_000)],
        white: &[(5_500_000, 4_000_000), (8_500_000, 4_000_000)],
    },
    // a block in a mirrored and turned block, and one flashed clear
    File {
        text: b"%FSLAX36Y36*%\n%MOMM*%\n%ADD10C,1*%\n%ADD11C,0.5*%\n%ADD13R,10X10*%\n%ABD12*%\nD10*\nX1000000Y0D03*\n\
%LPC*%\nD11*\nX1000000Y0D03*\n%LPD*%\n%AB*%\n%ABD14*%\n%LMX*%\n%LR90*%\nD12*\nX0Y0D03*\n%LMN*%\n%LR0*%\n%AB*%\n\
D13*\nX0Y0D03*\n%LPC*%\nD12*\nX0Y0D03*\nD14*\nX3000000Y0D03*\nM02*\n",
        entries: 5,
        items: 3,
        black: &[(2_000_000, 0), (6_000_000, -2_000_000)],
        white: &[(2_800_000, 0), (6_800_000, -2_000_000)],
    },
    // a repeat whose third copy clears what the second one drew
    File {
        text: b"%FSLAX36Y36*%\n%MOMM*%\n%ADD10C,1*%\n%ADD11C,0.5*%\n%SRX2Y2I2J2*%\nD10*\nX0Y0D03*\n%LPC*%\nD11*\n\
X-2000000Y2000000D03*\n%SR*%\nM02*\n",
        entries: 2,
        items: 1,
        black: &[(4_000_000, 4_000_000), (0, 0), (4_000_000, 0)],
        white: &[(0, 4_000_000)],
    },
    // a rounded rectangle as KiCad's macro makes it, at exactly its corner's radius
    File {
        text: b"%FSLAX36Y36*%\n%MOMM*%\n%AMRoundRect*\n0 Rounded*\n4,1,4,$2,$3,$4,$5,$6,$7,$8,$9,$2,$3,0*\n\
1,1,$1+$1,$2,$3*\n1,1,$1+$1,$4,$5*\n1,1,$1+$1,$6,$7*\n1,1,$1+$1,$8,$9*\n20,1,$1+$1,$2,$3,$4,$5,0*\n20,1,$1+$1,$4,$5,$6,$7,0*\n\
20,1,$1+$1,$6,$7,$8,$9,0*\n20,1,$1+$1,$8,$9,$2,$3,0*%\n\
%ADD10RoundRect,0.25X-0.5X-0.25X-0.5X0.25X0.5X0.25X0.5X-0.25*%\nD10*\nX0Y0D03*\nM02*\n",
        entries: 1,
        items: 1,
        black: &[(1_300_000, 900_000)],
        white: &[(1_500_000, 900_000)],
    },
    // a draw across the board
    File {
        text: b"%FSLAX46Y46*%\n%MOMM*%\n%ADD10C,1*%\nD10*\n\
X-999999999Y-999999999D02*\nX999999999Y999999999D01*\nM02*\n",
        entries: 1,
        items: 1,
        black: &[(1_999_999_999, 1_999_999_999)],
        white: &[(-1_999_999_997, 1_999_999_997)],
    },
    // a rectangle with a hole, turned
    File {
        text: b"%FSLAX36Y36*%\n%MOMM*%\n%ADD10R,2X1X0.5*%\n%LR90*%\nD10*\nX0Y0D03*\nM02*\n",
        entries: 1,
        items: 1,
        black: &[
            (-1_000_000, 2_000_000),
            (0, 1_000_000),
            (-1_000_000, 0),
            (1_000_000, -2_000_000),
        ],
        white: &[(0, 0), (-1_000_000, 2_000_001)],
    },
    // old forms, inches, and a plot without its code
    File {
        text: b"%FSLAX24Y24*%\nG70*\n%IPPOS*%\n%OFA0B0*%\n%ADD10C,0.1*%\nG54D10*\nG90*\nG01X0Y0D02*\nX10000D01*\n\
Y10000*\nM02*\n",
        entries: 1,
        items: 2,
        black: &[(53_340_000, 25_400_000)],
        white: &[(53_340_002, 25_400_000)],
    },
    // the greatest repeat, which the end closes; comments and attributes
    File {
        text: b"G04 a comment*\n%TF.GenerationSoftware,KiCad,Pcbnew,8.0*%\n%FSLAX36Y36*%\n%MOMM*%\n%ADD10C,0.1*%\n\
%TO.N,GND*%\nD10*\n%SRX2000Y2000I0J0*%\nX0Y0D03*\nM02*\n",
        entries: 1,
        items: 1,
        black: &[(100_000, 0)],
        white: &[(100_001, 0)],
    },
];
