//! What a search for a kept set meets.

ghost use Rattle.std.specs.Prelude.{◌≡◌, ◌+◌, ◌*◌, ◌^◌, ◌<◌, ◌≤◌};
ghost use Rattle.slice_closure.specs.Items as spec;

use block_cfg::{point_number, point_of_number};
use wasm_types::{Loc, Node};

/// What is kept of a body.
#[derive(Clone, Copy, Drop)]
pub(crate) enum Item {
    /// That a node is kept, and with it its value where it calls nothing.
    Keeps(Node),
    /// The value of a call.
    Value(Node),
    /// What a call writes to a location.
    Written(Loc, Node),
    /// A location at a point: what is written to it before is kept.
    Needs(Loc, Node),
}

/// The number of a location.
pub(crate) fn loc_number(loc: Loc) -> usize
    ensures number { result ≡ spec.loc_number loc }
    ensures small { result < 2 ^ 33 + 3 }
{
    match loc {
        Loc::Mem => 0,
        Loc::Size => 1,
        Loc::Host => 2,
        Loc::Local(local) => 2 * local as usize + 3,
        Loc::Global(global) => 2 * global as usize + 4,
    }
}

/// The location of a number.
fn loc_of_number(index: usize) -> Loc
    requires { index < 2 ^ 33 + 3 }
    ensures { spec.loc_number result ≡ index }
{
    if index == 0 {
        return Loc::Mem;
    }
    if index == 1 {
        return Loc::Size;
    }
    if index == 2 {
        return Loc::Host;
    }
    let place = ((index - 3) / 2) as u32;
    if (index - 3) % 2 == 0 {
        Loc::Local(place)
    } else {
        Loc::Global(place)
    }
}

/// How many numbers nodes and locations have. The items have numbers by both.
#[derive(Clone, Copy, Drop)]
pub(crate) struct Numbering {
    pub(crate) nodes: usize,
    pub(crate) locs: usize,
    ghost some: { 0 < nodes },
    ghost few: { nodes ≤ 2 ^ 20 },
    ghost small: { locs ≤ 2 ^ 33 + 3 },
}

impl Numbering {
    /// How many items there may be.
    pub(crate) fn count(&self) -> usize
        ensures { result ≡ (2 * self.now.locs + 2) * self.now.nodes }
    {
        (2 * self.locs + 2) * self.nodes
    }

    /// The number of an item.
    pub(crate) fn number(&self, item: Item) -> usize
        requires { spec.IsItem self.now.nodes self.now.locs item }
        ensures { result ≡ spec.item_number self.now.nodes item }
    {
        match item {
            Item::Keeps(node) => point_number(node),
            Item::Value(node) => self.nodes + point_number(node),
            Item::Written(loc, node) => (2 * loc_number(loc) + 2) * self.nodes + point_number(node),
            Item::Needs(loc, node) => (2 * loc_number(loc) + 3) * self.nodes + point_number(node),
        }
    }

    /// The item of a number.
    pub(crate) fn item(&self, index: usize) -> Item
        requires { index < (2 * self.now.locs + 2) * self.now.nodes }
        ensures number { spec.item_number self.now.nodes result ≡ index }
        ensures item { spec.IsItem self.now.nodes self.now.locs result }
    {
        let node = point_of_number(index % self.nodes);
        let kind = index / self.nodes;
        if kind == 0 {
            return Item::Keeps(node);
        }
        if kind == 1 {
            return Item::Value(node);
        }
        let loc = loc_of_number((kind - 2) / 2);
        if kind % 2 == 0 {
            Item::Written(loc, node)
        } else {
            Item::Needs(loc, node)
        }
    }
}
