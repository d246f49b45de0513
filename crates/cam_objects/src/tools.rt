//! The tools of a drill layer.

ghost use Rattle.std.specs.Prelude.{
  ◌≡◌,
  ◌==◌,
  ◌++◌,
  ◌∷◌,
  [],
  None,
  Some,
  IsSome,
  OnErr,
  OnOk,
  length,
  nat_eq,
  slice_get,
};
ghost use Rattle.std.specs.List.{IsDistinct};
ghost use Rattle.std.specs.Map.{keys_of, set_value};
ghost use Rattle.cam_objects.specs.Drilling.{diameter_of};

use cam_units::Nm;
use indexmap::IndexMap;
use std::alloc::{AllocError, Global};
use std::marker::Model;

/// The tools of a drill layer in their order: the diameter of each number, in nm. No number stands
/// twice.
#[derive(Clone, Drop)]
pub struct Tools {
    map: IndexMap<u16, Nm>,
}

impl Model for Tools {
    ghost use Rattle.std.specs.Prelude.{List, ℕ};
    ghost use Rattle.cam_units.specs.declared.length.Nm.{Nm};

    ghost Value = { List (ℕ × Nm) };

    ghost use Rattle.std.specs.Prelude.{nat_eq};
    ghost use Rattle.std.specs.Map.{keys_of};
    ghost use Rattle.std.specs.List.{IsDistinct};

    ghost view = { λ t. t.map.entries };

    ghost invariant = { λ t. IsDistinct nat_eq (keys_of t.map.entries) };
}

impl Tools {
    /// No tool.
    pub fn new(alloc: Global) -> Tools
        ensures { result ≡ [] }
    {
        Tools {
            map: IndexMap::new(alloc),
        }
    }

    /// The tools of a map, in its order, without a copy.
    pub fn from_map(map: IndexMap<u16, Nm>) -> Tools
        ensures { result ≡ map.entries }
    {
        Tools { map }
    }

    /// The map of the tools, in their order, without a copy.
    pub fn into_map(self) -> IndexMap<u16, Nm>
        ensures { result.entries ≡ self }
    {
        let Tools { map } = self;
        map
    }

    /// How many tools there are.
    pub fn len(&self) -> usize
        ensures value { result ≡ length self.now }
        ensures distinct { IsDistinct nat_eq (keys_of self.now) }
    {
        self.map.len()
    }

    /// Whether there is no tool.
    pub fn is_empty(&self) -> bool
        ensures { result ≡ (length self.now == 0) }
    {
        self.map.is_empty()
    }

    /// The diameter of a tool, in nm.
    pub fn get(&self, tool: u16) -> Option<Nm>
        ensures { result ≡ diameter_of self.now tool }
    {
        self.map.get(&tool).copied()
    }

    /// The number and the diameter of the tool at a place in their order, counted from 0.
    pub fn at(&self, place: usize) -> Option<(u16, Nm)>
        ensures { result ≡ slice_get self.now place }
    {
        match self.map.get_index(place) {
            Some((tool, diameter)) => Some((*tool, *diameter)),
            None => None,
        }
    }

    /// Adds a tool behind the others; refused for want of memory alone.
    pub fn push(&mut self, tool: u16, diameter: Nm) -> Result<(), AllocError>
        requires { diameter_of self.old tool ≡ None }
        ensures ok { OnOk result (self.new ≡ self.old ++ (tool, diameter) ∷ []) }
        ensures err { OnErr result (self.new ≡ self.old) }
    {
        self.map.insert(tool, diameter)?;
        Ok(())
    }

    /// Gives a tool another diameter, in its place in the order. The answer is the diameter before. Takes no memory.
    pub fn replace(&mut self, tool: u16, diameter: Nm) -> Nm
        requires { IsSome (diameter_of self.old tool) }
        ensures tools { self.new ≡ set_value (nat_eq tool) self.old diameter }
        ensures before { diameter_of self.old tool ≡ Some result }
    {
        self.map.insert(tool, diameter).unwrap().unwrap()
    }
}
