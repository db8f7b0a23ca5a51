//! The names of the values of a function's body.

ghost use Rattle.std.specs.Prelude.{◌≡◌};

use crate::groups::Groups;
use crate::lists::Lists;
use crate::place::Place;
use std::marker::Model;
use wasm_types::{Node, Pos, Taker};

/// What a body's instructions take, what takes each value, and which values come together.
#[derive(Drop)]
pub struct Names {
    lists: Lists,
    takers: Groups<Taker>,
    joined: Groups<Node>,
}

impl Model for Names {
    ghost use Rattle.stack_names.specs.Named.{Named};

    ghost Value = { Named };

    ghost view = { λ n. record { positions = n.lists; takers = n.takers; joined = n.joined } };
}

impl Names {
    ghost use Rattle.stack_names.specs.Named.{is_live_in, operands_in, stack_in, of_node};

    /// The names that these parts hold.
    pub(crate) fn new(lists: Lists, takers: Groups<Taker>, joined: Groups<Node>) -> Names
        ensures { result ≡ record { positions = lists; takers = takers; joined = joined } }
    {
        Names {
            lists,
            takers,
            joined,
        }
    }

    /// Whether a position is live: false too where there is no such position.
    #[inline]
    pub fn live(&self, pos: Pos) -> bool
        ensures { result ≡ is_live_in self.now.positions pos.0 }
    {
        self.lists.live(pos.0 as usize)
    }

    /// All operands of a live instruction, the values that a branch carries among them, the deepest first; none of a dead one.
    #[inline]
    pub fn operands(&self, pos: Pos) -> &[Place]
        ensures { result.now ≡ operands_in self.now.positions pos.0 }
    {
        self.lists.operands(pos.0 as usize)
    }

    /// The stack of the sequence at a live `unreachable`, `br`, `br_table` or `return`, the deepest first; of any other live instruction its operands, and
    /// nothing of a dead one.
    pub fn stack(&self, pos: Pos) -> &[Place]
        ensures { result.now ≡ stack_in self.now.positions pos.0 }
    {
        self.lists.stack(pos.0 as usize)
    }

    /// The makers of the values that come to a block's end or to the body's, in reading order: one for each live branch that carries a value there, and for
    /// each live end.
    pub fn joined(&self, node: Node) -> &[Node]
        ensures { result.now ≡ of_node self.now.joined node }
    {
        self.joined.get(node)
    }

    /// What takes the value that a node makes, in reading order: nothing where the node makes none.
    #[inline]
    pub fn takers(&self, maker: Node) -> &[Taker]
        ensures { result.now ≡ of_node self.now.takers maker }
    {
        self.takers.get(maker)
    }
}
