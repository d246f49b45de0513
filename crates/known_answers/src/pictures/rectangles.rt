//! Lines that rectangles draw, and places that are black or not: painted by an independent program, which looks for a
//! point of the line from which the rectangle reaches the place.

pub const RECTANGLES: &[u8] = b"\
# a line of 25 nm: a corner goes along each edge|\
%FSLAX46Y46*%%MOMM*%G01*G75*%ADD10R,0.000008X0.000006*%D10*X15Y20D01*M02*\
!8,-6 -8,6 38,34 22,46 38,46 -8,-6 15,20\
!9,-6 -8,7 38,33 21,46 39,46 38,47 -9,-6|\
# turned by a quarter, the rectangle is as wide as it was high|\
%FSLAX46Y46*%%MOMM*%G01*G75*%ADD10R,0.000008X0.000006*%%LR90*%D10*X15Y20D01*M02*\
!6,-8 -6,8 36,32 24,48 36,48 -6,-8\
!7,-8 8,-6 -7,8 36,31 23,48 37,48 36,49|\
# mirrored and then turned by three quarters|\
%FSLAX46Y46*%%MOMM*%G01*G75*%ADD10R,0.000008X0.000006*%%LMX*%%LR270*%D10*X15Y20D01*M02*\
!6,-8 -6,8 36,32 24,48 36,48 -6,-8\
!7,-8 8,-6 -7,8 36,31 23,48 37,48 36,49|\
# mirrored|\
%FSLAX46Y46*%%MOMM*%G01*G75*%ADD10R,0.000008X0.000006*%%LMX*%D10*X15Y20D01*M02*\
!8,-6 -8,6 38,34 22,46 38,46 -8,-6 15,20\
!9,-6 -8,7 38,33 21,46 39,46 38,47 -9,-6|\
# in a block that is turned, the line and the rectangle are turned|\
%FSLAX46Y46*%%MOMM*%G01*G75*%ADD10R,0.000008X0.000006*%%ABD11*%D10*X15Y20D01*%AB*%%LR90*%D11*X0Y0D03*M02*\
!-6,-8 6,8 -46,38 -46,22 -34,38\
!-6,-9 -47,22 -33,38 -34,39 8,6|\
# the quarter turns of a line and of its block together|\
%FSLAX46Y46*%%MOMM*%G01*G75*%ADD10R,0.000008X0.000006*%%ABD11*%%LR90*%D10*X15Y20D01*%AB*%%LR270*%D11*X0Y0D03*M02*\
!8,6 -8,-6 48,-24 32,-36 48,-36 -8,6\
!9,6 48,-23 49,-36 31,-36 6,8|\
# level, upright, and of no length|\
%FSLAX46Y46*%%MOMM*%G01*G75*%ADD10R,0.000008X0.000006*%D10*X10Y0D01*X50Y0D02*X50Y-10D01*X100Y0D02*X100Y0D01*M02*\
!28,6 -8,-6 108,-26 92,6 208,6 192,-6\
!29,0 0,7 109,0 100,-27 209,0 200,7|\
# a clear line through a disc|\
%FSLAX46Y46*%%MOMM*%G01*G75*%ADD10R,0.000008X0.000006*%%ADD11C,0.000025*%D11*X0Y0D03*%LPC*%D10*X15Y20D01*M02*\
!9,-6 0,25 0,-25 20,0 -9,-6\
!0,0 8,-6 20,20 -8,-6 15,20 7,24|\
# copies of a repeat|\
%FSLAX46Y46*%%MOMM*%G01*G75*%ADD10R,0.000008X0.000006*%%SRX2Y2I0.00005J-0.0001*%D10*X15Y20D01*%SR*%M02*\
!0,0 8,-6 100,0 108,-6 122,46 0,-200 8,-206\
!9,-6 109,-6 121,46 9,-206|\
# across the board|\
%FSLAX46Y46*%%MOMM*%G01*G75*%ADD10R,0.000001X200*%D10*X-999999999Y-999999999D02*X999999999Y999999999D01*M02*\
!0,200000001 1999999999,1999999999 -200000001,0\
!0,200000002 1999999999,-1999999999 -200000002,0";
