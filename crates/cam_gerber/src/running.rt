//! The running record of one pass over the commands.

ghost use Rattle.std.specs.Prelude.{◌≡◌, []};
ghost use Rattle.cam_objects.specs.Contents.{content_of};
ghost use Rattle.cam_gerber.specs.Machinery.Tracking.{Tracks, content_in};

use crate::attributes::Attributes;
use crate::built::Built;
use crate::frames::Frames;
use crate::modal::Modal;
use crate::region::Region;
use cam_apertures::Macros;
use cam_commands::Mode;
use cam_objects::Layer;
use cam_units::{Point, Turn};
use std::alloc::Global;
use std::collections::VecDeque;

/// What is in force, plotted, open and built behind the commands so far.
#[derive(Drop)]
pub struct Running {
    pub alloc: Global,
    pub modal: Modal,
    pub region: Region,
    pub frames: Frames,
    pub built: Built,
    pub attributes: Attributes,
}

impl Running {
    /// Behind no command.
    pub fn new(alloc: Global) -> Running
        ensures { Tracks [] result }
    {
        Running {
            alloc,
            modal: Modal {
                format: None,
                unit: None,
                dark: true,
                mirror: Turn::R0,
                rotation: Turn::R0,
                aperture: None,
                mode: Mode::Linear,
                arcs: false,
                code: None,
                point: Point { x: 0, y: 0 },
            },
            region: Region {
                inside: false,
                start: Point { x: 0, y: 0 },
                segs: Vec::new(alloc),
            },
            frames: Frames {
                blocks: VecDeque::new(alloc),
                repeat: None,
            },
            built: Built {
                layer: Layer::new(alloc),
                macros: Macros::new(alloc),
                leaves: 0,
            },
            attributes: Attributes::new(alloc),
        }
    }

    /// The layer so far.
    pub fn into_layer(self) -> Layer
        ensures { content_of result ≡ content_in self }
    {
        let Running {
            built,
            attributes,
            ..
        } = self;
        let mut layer = built.layer;
        layer.attributes = attributes.into_vec();
        layer
    }
}
