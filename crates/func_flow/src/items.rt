//! What a search over a body meets.

ghost use Rattle.std.specs.Prelude.{◌≡◌, ◌+◌, ◌*◌, ◌^◌, ◌<◌, ◌≤◌};
ghost use Rattle.func_flow.specs.Items as spec;

use crate::numbering::Numbering;
use block_cfg::{point_number, point_of_number};
use wasm_types::{Loc, Node};

/// What an output of a function may lead to.
#[derive(Clone, Copy, Drop)]
pub(crate) enum Item {
    /// The value that a node makes.
    Value(Node),
    /// That the instruction at a node completes.
    Completion(Node),
    /// An if or a branch, as what decides whether nodes run.
    Decider(Node),
    /// Whatever decides whether a node runs.
    Decided(Node),
    /// What the instruction at a node writes to a location.
    Written(Loc, Node),
    /// A location as it is just before a node.
    Needed(Loc, Node),
}

impl Numbering {
    /// How many items there may be.
    pub(crate) fn count(&self) -> usize
        ensures { result ≡ (2 * (self.now.globals + self.now.locals) + 10) * self.now.nodes }
    {
        (2 * (self.globals + self.locals) + 10) * self.nodes
    }

    /// The number of a location.
    pub(crate) fn loc_number(&self, loc: Loc) -> usize
        requires { spec.IsLoc self.now.globals self.now.locals loc }
        ensures number { result ≡ spec.loc_number self.now.globals loc }
        ensures below { result < self.now.globals + self.now.locals + 3 }
    {
        match loc {
            Loc::Mem => 0,
            Loc::Size => 1,
            Loc::Host => 2,
            Loc::Global(global) => global as usize + 3,
            Loc::Local(local) => local as usize + self.globals + 3,
        }
    }

    /// The location of a number.
    pub(crate) fn loc(&self, index: usize) -> Loc
        requires { index < self.now.globals + self.now.locals + 3 }
        ensures number { spec.loc_number self.now.globals result ≡ index }
        ensures there { spec.IsLoc self.now.globals self.now.locals result }
    {
        if index == 0 {
            return Loc::Mem;
        }
        if index == 1 {
            return Loc::Size;
        }
        if index == 2 {
            return Loc::Host;
        }
        if index - 3 < self.globals {
            return Loc::Global((index - 3) as u32);
        }
        Loc::Local((index - 3 - self.globals) as u32)
    }

    /// The number of an item.
    pub(crate) fn number(&self, item: Item) -> usize
        requires { spec.IsItem self.now item }
        ensures { result ≡ spec.item_number self.now item }
    {
        match item {
            Item::Value(node) => point_number(node),
            Item::Completion(node) => self.nodes + point_number(node),
            Item::Decider(node) => 2 * self.nodes + point_number(node),
            Item::Decided(node) => 3 * self.nodes + point_number(node),
            Item::Written(loc, node) => (2 * self.loc_number(loc) + 4) * self.nodes
                + point_number(node),
            Item::Needed(loc, node) => (2 * self.loc_number(loc) + 5) * self.nodes
                + point_number(node),
        }
    }

    /// The item of a number.
    pub(crate) fn item(&self, index: usize) -> Item
        requires { index < (2 * (self.now.globals + self.now.locals) + 10) * self.now.nodes }
        ensures number { spec.item_number self.now result ≡ index }
        ensures item { spec.IsItem self.now result }
    {
        let node = point_of_number(index % self.nodes);
        let kind = index / self.nodes;
        if kind == 0 {
            return Item::Value(node);
        }
        if kind == 1 {
            return Item::Completion(node);
        }
        if kind == 2 {
            return Item::Decider(node);
        }
        if kind == 3 {
            return Item::Decided(node);
        }
        let loc = self.loc((kind - 4) / 2);
        if kind % 2 == 0 {
            Item::Written(loc, node)
        } else {
            Item::Needed(loc, node)
        }
    }
}
