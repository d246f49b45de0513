//! Statements, as the lines of a file say them.

use cam_units::Unit;

/// The X or the Y of a line (XNC Format Specification, "Coordinates").
#[derive(Clone, Copy)]
pub enum Coordinate {
    /// Not written: it keeps its last value.
    Omitted,
    /// Written as something that is no number.
    Malformed,
    /// Written without a point, which leaves open where the digits lie.
    Pointless,
    /// Written, in 10^-9 of a unit.
    Written(i64),
}

/// What a line of a file says, its comment and its skipped bytes left out. A number that does
/// not fit its grammar is `None`.
#[derive(Clone, Copy)]
pub enum Statement {
    /// `M48`: the header begins.
    BeginHeader,
    /// `METRIC` or `INCH`, perhaps with `,LZ` or `,TZ`.
    SetUnit(Unit),
    /// `TnCd`: a tool, its diameter in 10^-9 of a unit.
    Declare {
        number: Option<u16>,
        diameter: Option<i64>,
    },
    /// `FMAT,2` or `G90`, which say what holds already.
    Neutral,
    /// `%`: the body begins.
    EndHeader,
    /// `Tn`; 0 selects no tool.
    Select(Option<u16>),
    /// `G05`: coordinates are hits.
    DrillMode,
    /// `X..Y..`: a hit.
    HitAt {
        x: Coordinate,
        y: Coordinate,
    },
    /// `X..Y..G85X..Y..`, as Excellon has it: a slot, straight from its start to its end.
    Slot {
        start_x: Coordinate,
        start_y: Coordinate,
        end_x: Coordinate,
        end_y: Coordinate,
    },
    /// `G00X..Y..`: to the start of a rout.
    RoutTo {
        x: Coordinate,
        y: Coordinate,
    },
    /// `M15`: the tool is lowered.
    Lower,
    /// `G01X..Y..`: a straight cut.
    CutTo {
        x: Coordinate,
        y: Coordinate,
    },
    /// `M16`: the tool is raised.
    Raise,
    /// `G02` or `G03`: a cut along an arc.
    CutArc,
    /// `M30`: the end.
    End,
    /// Anything else.
    Unknown,
}
