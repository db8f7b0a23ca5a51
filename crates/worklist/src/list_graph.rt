//! A graph that is given by lists.

ghost use Rattle.std.specs.Prelude.{length};
ghost use Rattle.worklist.specs.Lists.{Has, RowsBelow};
ghost use Rattle.worklist.specs.ListsLaws.{has_below};

use crate::graph::Graph;
use wasm_types::NoMemory;

/// A graph by the nodes that each node leads to, in any order and however often.
#[derive(Drop)]
pub struct ListGraph {
    pub next: Vec<Vec<usize>>,
    pub ghost below: { RowsBelow (length next.items) next.items },
}

impl Graph for ListGraph {
    ghost node_count = { λ graph. length graph.next.items };

    ghost leads = { λ graph. Has graph.next.items };

    fn node_count(&self) -> usize {
        self.next.len()
    }

    fn push_next(&self, node: usize, next: &mut Vec<usize>) -> Result<(), NoMemory> {
        for other in &self.next[node] {
            next.push(*other).map_err(|_| NoMemory)?;
        }
        Ok(())
    }

    ghost stays = { λ graph x y lt e. has_below (length graph.next.items) graph.next.items graph.below x y e };
}
