//! Objects that are made one after the other.

ghost use Rattle.std.specs.Prelude.{◌≡◌, ◌++◌, ◌∷◌, [], length, OnOk};
ghost use Rattle.cam_gerber.specs.Faults.{is_left_out};

use cam_objects::{Object, Objects};
use std::alloc::{AllocError, Global};
use std::marker::Model;

/// The objects of an open block or repeat so far, in order.
#[derive(Drop)]
pub struct ObjectList {
    objects: Vec<Object>,
}

impl Model for ObjectList {
    ghost use Rattle.std.specs.Prelude.{List};
    ghost use Rattle.cam_objects.specs.declared.object.Object.{Object};

    ghost Value = { List Object };

    ghost view = { λ list. list.objects.items };
}

impl ObjectList {
    /// None.
    pub fn new(alloc: Global) -> ObjectList
        ensures { result ≡ [] }
    {
        ObjectList {
            objects: Vec::new(alloc),
        }
    }

    /// How many objects there are.
    pub fn len(&self) -> usize
        ensures { result ≡ length self.now }
    {
        self.objects.len()
    }

    /// Whether there is no object.
    pub fn is_empty(&self) -> bool
        ensures { result ≡ is_left_out self.now }
    {
        self.objects.is_empty()
    }

    /// Adds an object behind the others; refused for want of memory alone.
    pub fn push(&mut self, object: Object) -> Result<(), AllocError>
        ensures { OnOk result (self.new ≡ self.old ++ object ∷ []) }
    {
        self.objects.push(object)?;
        Ok(())
    }

    /// The objects of a closed block or repeat.
    pub fn into_objects(self) -> Objects
        ensures { result ≡ self }
    {
        let ObjectList { objects } = self;
        Objects::from_vec(objects)
    }
}
