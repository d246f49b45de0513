//! Steps that edit a board.

ghost use Rattle.std.specs.Prelude.{◌≡◌, ◌∷◌, ◌++◌, [], List, count_by};
ghost use Rattle.cam_edits.specs.BoardSteps.{
  HasBoardRoom,
  IsBoardFit,
  IsDrillFitOn,
  IsFitOn,
  after_board_step,
  after_drill_on,
  after_on,
  step_boxes,
  inverse_board_step,
  inverse_drill_on,
  inverse_on,
  sheet_place,
};
ghost use Rattle.cam_edits.specs.Machinery.Room.{inserts_at, puts_at};
ghost use Rattle.cam_edits.specs.Machinery.BoardStepLaws.{HasDrillPlacesFor, HasPlacesFor};
ghost use Rattle.cam_edits.specs.Sheets.{Sheet, content_of, sheets_of};

use crate::board::{Board, SheetContent};
use crate::drill_step::DrillStep;
use crate::reversible::Reversible;
use crate::step::Step;
use cam_units::Bounds;
use std::alloc::AllocError;

/// A change of one sheet of a board, counted from 0, which turns into its inverse when it is played. The boxes, in half
/// nm, are those of what the edit touches, before and after it; they stay with the answer.
#[derive(Drop)]
pub enum BoardStep {
    Gerber {
        sheet: usize,
        step: Step,
        boxes: Vec<Bounds>,
    },
    Drill {
        sheet: usize,
        step: DrillStep,
        boxes: Vec<Bounds>,
    },
}

impl BoardStep {
    /// The place of the sheet that it changes.
    pub fn sheet(&self) -> usize
        ensures { result ≡ sheet_place self.now }
    {
        match self {
            BoardStep::Gerber { sheet, .. } => *sheet,
            BoardStep::Drill { sheet, .. } => *sheet,
        }
    }

    /// The boxes of what the edit touches, in half nm.
    pub fn boxes(&self) -> &[Bounds]
        ensures { result.now ≡ step_boxes self.now }
    {
        match self {
            BoardStep::Gerber { boxes, .. } => boxes.as_slice(),
            BoardStep::Drill { boxes, .. } => boxes.as_slice(),
        }
    }
}

impl Reversible for BoardStep {
    ghost use Rattle.cam_edits.specs.Machinery.BoardStepLaws.{
      board_answer_fits,
      board_gives_back_content,
      board_gives_back_step,
      board_last_has_room,
    };

    type Doc = Board;

    ghost Content = { List Sheet };

    ghost content = { sheets_of };

    ghost after = { after_board_step };

    ghost inverse = { inverse_board_step };

    ghost is_fit = { IsBoardFit };

    ghost has_room = { HasBoardRoom };

    ghost answer_fits = { board_answer_fits };

    ghost gives_back_content = { board_gives_back_content };

    ghost gives_back_step = { board_gives_back_step };

    ghost last_has_room = { board_last_has_room };

    fn fits(&self, board: &Board) -> bool {
        match self {
            BoardStep::Gerber { sheet, step, .. } => match board.sheets.get(*sheet) {
                Some(kept) => match &kept.content {
                    SheetContent::Gerber(layer) => layer.fits(step),
                    SheetContent::Drill(_) => false,
                },
                None => false,
            },
            BoardStep::Drill { sheet, step, .. } => match board.sheets.get(*sheet) {
                Some(kept) => match &kept.content {
                    SheetContent::Gerber(_) => false,
                    SheetContent::Drill(layer) => layer.fits(step),
                },
                None => false,
            },
        }
    }

    fn room(group: &[BoardStep], board: &mut Board) -> Result<(), AllocError> {
        for place in 0..board.sheets.len() {
            let items = insertion_count(group, place);
            let attributes = attribute_count(group, place);
            board.sheets[place].content.reserve(items, attributes)?;
        }
        Ok(())
    }

    fn play(self, board: &mut Board) -> BoardStep {
        match self {
            BoardStep::Gerber { sheet, step, boxes } => BoardStep::Gerber {
                sheet,
                step: play_on(step, &mut board.sheets[sheet].content),
                boxes,
            },
            BoardStep::Drill { sheet, step, boxes } => BoardStep::Drill {
                sheet,
                step: play_drill_on(step, &mut board.sheets[sheet].content),
                boxes,
            },
        }
    }
}

/// How many of the steps insert an item into the sheet at a place.
fn insertion_count(group: &[BoardStep], place: usize) -> usize
    ensures { result ≡ count_by (inserts_at place) group.now }
{
    group.iter().filter(|step| inserts_at(step, place)).count()
}

/// Whether the step inserts an item into the sheet at a place.
fn inserts_at(step: &BoardStep, place: usize) -> bool
    ensures { result ≡ inserts_at place step.now }
{
    match step {
        BoardStep::Gerber { sheet, step, .. } => {
            *sheet == place && matches!(step, Step::Insert { .. })
        }
        BoardStep::Drill { sheet, step, .. } => {
            *sheet == place && matches!(step, DrillStep::Insert { .. })
        }
    }
}

/// How many of the steps put an attribute on the sheet at a place.
fn attribute_count(group: &[BoardStep], place: usize) -> usize
    ensures { result ≡ count_by (puts_at place) group.now }
{
    group.iter().filter(|step| puts_at(step, place)).count()
}

/// Whether the step puts an attribute on the sheet at a place.
fn puts_at(step: &BoardStep, place: usize) -> bool
    ensures { result ≡ puts_at place step.now }
{
    match step {
        BoardStep::Gerber { sheet, step, .. } => {
            *sheet == place && matches!(step, Step::PutAttribute { .. })
        }
        BoardStep::Drill { .. } => false,
    }
}

/// Plays the step on what a sheet holds. The answer leads back.
fn play_on(step: Step, content: &mut SheetContent) -> Step
    requires fits { IsFitOn step (content_of content.old) }
    requires room { HasPlacesFor (step ∷ []) content.old }
    ensures content { content_of content.new ≡ after_on step (content_of content.old) }
    ensures answer { result ≡ inverse_on step (content_of content.old) }
    ensures room { (rest : List Step)
        → HasPlacesFor (rest ++ step ∷ []) content.old → HasPlacesFor rest content.new }
{
    match content {
        SheetContent::Gerber(layer) => layer.play(step),
        SheetContent::Drill(_) => step,
    }
}

/// Plays the step of a drill layer on what a sheet holds. The answer leads back.
fn play_drill_on(step: DrillStep, content: &mut SheetContent) -> DrillStep
    requires fits { IsDrillFitOn step (content_of content.old) }
    requires room { HasDrillPlacesFor (step ∷ []) content.old }
    ensures content { content_of content.new ≡ after_drill_on step (content_of content.old) }
    ensures answer { result ≡ inverse_drill_on step (content_of content.old) }
    ensures room { (rest : List DrillStep)
        → HasDrillPlacesFor (rest ++ step ∷ []) content.old → HasDrillPlacesFor rest content.new }
{
    match content {
        SheetContent::Gerber(_) => step,
        SheetContent::Drill(layer) => layer.play(step),
    }
}
