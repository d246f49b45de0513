//! Laws of pictures. Each function does nothing: its contract is a law of what plots show.

ghost use Rattle.cam_tiles.specs.Picture.{AcceptLaw, OnePlotLaw, PlotLaw};
ghost use Rattle.cam_tiles.specs.TileLaws.{PictureLaw, RedrawLaw, TouchLaw};

/// A window is accepted exactly where its sides and its pitch are in their limits and the
/// centres of all its pixels are places of the board.
#[tactic(auto, using(crate::proofs::WindowLemmas::accept_law))]
pub fn acceptance_is_by_all_centres()
    ensures { AcceptLaw }
{}

/// In a plot of any image each pixel is black exactly where the image is black at its centre.
pub fn plots_show_the_image()
    ensures { PlotLaw }
{}

/// No other file than the plot shows the image.
pub fn one_file_shows_the_image()
    ensures { OnePlotLaw }
{}

/// Boxes make exactly those tiles dirty that hold a pixel centre in one of them, and keep the others and their pixels.
#[tactic(auto, using(crate::proofs::TouchedTiles::touch_law))]
pub fn boxes_touch_their_tiles()
    ensures { TouchLaw }
{}

/// A redraw draws the dirty tiles of least number, as many as it may, and keeps all others.
#[tactic(auto, using(crate::proofs::DrawnTiles::redraw_law))]
pub fn dirty_tiles_are_drawn_in_order()
    ensures { RedrawLaw }
{}

/// Each clean tile shows an image from the beginning on, through redraws, and through changes of the image inside of
/// boxes that touch them; and the file of clean tiles is the image's plot.
#[tactic(auto, using(crate::proofs::Pictures::picture_law))]
pub fn clean_tiles_show_the_image()
    ensures { PictureLaw }
{}
