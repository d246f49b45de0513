//! The tools of the items of a drill layer, which are kept beside it.

ghost use Rattle.std.specs.Prelude.{◌≡◌, ◌≤◌, length};
ghost use Rattle.cam_objects.specs.DrillSoundness.{tool_of};
ghost use Rattle.cam_edits.specs.Machinery.Shifts.{AreToolsOf, IsNextOfTool, WereTools, tools_of};

use crate::shift::Shift;
use cam_objects::{DrillItem, DrillLayer, ItemNumbers};
use std::alloc::Global;

/// The number of its tool.
#[inline]
pub(crate) fn tool(item: &DrillItem) -> u16
    ensures { result ≡ tool_of item.now }
{
    match item {
        DrillItem::Hit { tool, .. } => *tool,
        DrillItem::Rout { tool, .. } => *tool,
    }
}

/// The tools of the items of a layer; where memory is refused, of none of them.
pub(crate) fn tools_of(alloc: Global, layer: &DrillLayer) -> ItemNumbers
    ensures { AreToolsOf (tools_of layer.now.items.items) result }
{
    let mut tools = ItemNumbers::with_room(alloc, layer.items.len());
    for place in 0..layer.items.len() {
        tools.push_at(place, tool(&layer.items[place]));
    }
    tools
}

/// Lets them follow items that shifted with a step. Takes no memory.
pub(crate) fn follow(tools: &mut ItemNumbers, layer: &DrillLayer, shift: Shift)
    requires { WereTools shift tools.old (tools_of layer.now.items.items) }
    ensures { AreToolsOf (tools_of layer.now.items.items) tools.new }
{
    match (shift.from, shift.to) {
        (Some(from), Some(to)) if from == to => tools.set(to, tool(&layer.items[to])),
        (Some(from), Some(to)) => tools.carry(from, to, tool(&layer.items[to])),
        (Some(from), None) => tools.remove(from),
        (None, Some(to)) => tools.insert(to, tool(&layer.items[to])),
        (None, None) => {}
    }
}

/// The next place from one on with an item of a tool; how many items there are, where there is none. Reads the items of
/// the tool alone, and those whose tools are not kept.
pub(crate) fn next_of_tool(layer: &DrillLayer, tools: &ItemNumbers, place: usize, t: u16) -> usize
    requires known { AreToolsOf (tools_of layer.now.items.items) tools.now }
    requires within { place ≤ length layer.now.items.items }
    ensures { IsNextOfTool (tools_of layer.now.items.items) t place result }
{
    let count = layer.items.len();
    let mut next = tools.next_of(place, t);
    while next < count && tool(&layer.items[next]) != t {
        next = tools.next_of(next + 1, t);
    }
    next.min(count)
}
