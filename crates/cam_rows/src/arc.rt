//! Rows of an arc's stroke.

ghost use Rattle.cam_shapes.specs.Arc.{IsInArc, IsSoundArc};
ghost use Rattle.cam_rows.specs.ArcRuns.{IsBeyond, IsHollow, IsOuter, IsRingOf};
ghost use Rattle.cam_rows.specs.Rows.{IsRow, Marks};

use crate::centres::Centres;
use crate::disc::disc_row;
use crate::ring::{Ring, ring_of};
use crate::rows::row_of;
use crate::run_shape::RunShape;
use crate::runs::arc::{beyond_runs, outer_runs};
use crate::runs::circle::narrow_to_circle;
use cam_shapes::{Arc, Disc};

/// What the outer circle of an arc's stroke holds, and its sweep, where that is at most a half turn: the runs are those
/// of [`outer_runs`].
#[derive(Clone, Copy)]
pub struct Outer {
    pub arc: Arc,
    pub ring: Ring,
}

/// What the inner circle of an arc's stroke holds: a circle is found by a walk.
#[derive(Clone, Copy)]
pub struct Hollow {
    pub arc: Arc,
    pub ring: Ring,
}

/// What an arc's sweep leaves out, where it is more than a half turn: the runs are those of [`beyond_runs`].
#[derive(Clone, Copy)]
pub struct Beyond(pub Arc);

impl RunShape for Outer {
    ghost is_sound = { λ o. IsSoundArc o.arc × IsRingOf o.ring o.arc };

    ghost holds = { λ o s. IsOuter o.arc s };

    #[tactic(auto, using(crate::proofs::FoundRuns::found_anew))]
    fn find(&self, top: &Centres, firsts: &mut [u32], ends: &mut [u32]) {
        outer_runs(&self.arc, &self.ring, top, firsts, ends);
    }
}

impl RunShape for Hollow {
    ghost is_sound = { λ h. IsSoundArc h.arc × IsRingOf h.ring h.arc };

    ghost holds = { λ h s. IsHollow h.arc s };

    fn find(&self, top: &Centres, firsts: &mut [u32], ends: &mut [u32]) {
        narrow_to_circle(&self.arc.centre, self.ring.inner, top, firsts, ends);
    }
}

impl RunShape for Beyond {
    ghost is_sound = { λ b. IsSoundArc b.0 };

    ghost holds = { λ b s. IsBeyond b.0 s };

    #[tactic(auto, using(crate::proofs::FoundRuns::found_anew))]
    fn find(&self, top: &Centres, firsts: &mut [u32], ends: &mut [u32]) {
        beyond_runs(&self.0, top, firsts, ends);
    }
}

/// The centres in an arc's stroke or on its edge: those in a disc about one of its ends, and those in its sweep between
/// the circles that bound the stroke. Bit i is that of centre i, from the left; points and the width are in nanometres,
/// the centres in half nanometres.
pub fn arc_row(arc: Arc, centres: Centres) -> u64
    requires arc { IsSoundArc arc }
    requires row { IsRow centres }
    ensures { Marks result centres (λ s. IsInArc s arc) }
{
    let ring = ring_of(&arc);
    let outer = row_of(&Outer { arc, ring }, &centres);
    let hollow = row_of(&Hollow { arc, ring }, &centres);
    let beyond = row_of(&Beyond(arc), &centres);
    let start = Disc {
        centre: arc.from,
        diameter: arc.width,
    };
    let end = Disc {
        centre: arc.to,
        diameter: arc.width,
    };
    (outer & !hollow & !beyond) | disc_row(start, centres) | disc_row(end, centres)
}
