//! The nearest deciders of the nodes of a body (docs/ANALYSES.md, "Shadow").
//!
//! Deciders come one from the other. Where two branches stand before a position and lead past it, the first one leads past the second one too, and decides
//! about it. So of these the last one is enough, and the same goes for the branches out of a loop or of a block.

ghost use Rattle.std.specs.Prelude.{◌≡◌, ◌+◌, ◌<◌, IfOk, IfSome, Some, length, slice_get};
ghost use Rattle.control_deps.specs.Leaving.{AreExits, AreRows, Marks, Sees, exit_of, loop_around, loops_at, number, row_of};
ghost use Rattle.control_deps.specs.Nearest.{AreNearest, latest_in, nearest_in, nearest_of_row};
ghost use Rattle.control_deps.specs.Nest.{AreNested};

use crate::nest::Nest;
use crate::spot::{Form, Packed, Spot, pack_pos, spot_at, unpack_pos};
use std::alloc::Global;
use std::marker::Model;
use wasm_types::{NoMemory, Node, Pos};

/// The nearest deciders of a node.
#[derive(Clone, Copy, Debug, PartialEq, Eq)]
pub struct Nearest {
    /// Of a live position the last branch before it that leaves what is directly around it, or goes to its label.
    pub earlier: Option<Pos>,
    /// Of a live position directly in a loop the last branch that leaves the loop or goes to its label; of a join, and of the end of the body, the last branch
    /// that leaves its block, or the body, or goes to its label.
    pub latest: Option<Pos>,
}

/// What is kept of a position: its earlier decider, and what is directly around it where that is a loop.
#[derive(Clone, Copy, Debug, PartialEq, Eq)]
pub(crate) struct Row {
    pub(crate) earlier: Option<Pos>,
    pub(crate) inside: Option<Pos>,
}

/// A row in twelve bytes, since there is one for each position.
#[derive(Drop)]
pub(crate) struct PackedRow {
    earlier: u32,
    inside: u32,
    has_earlier: bool,
    is_inside: bool,
}

impl Model for PackedRow {
    ghost use Rattle.control_deps.specs.declared.deciders.Row.{Row};
    ghost use Rattle.control_deps.specs.Packing.{pos_back};

    ghost Value = { Row };

    ghost view = { λ p. record { earlier = pos_back p.has_earlier p.earlier; inside = pos_back p.is_inside p.inside } };
}

impl PackedRow {
    fn of(row: Row) -> PackedRow
        ensures { result ≡ row }
    {
        let (has_earlier, earlier) = pack_pos(row.earlier);
        let (is_inside, inside) = pack_pos(row.inside);
        PackedRow {
            earlier,
            inside,
            has_earlier,
            is_inside,
        }
    }

    fn get(&self) -> Row
        ensures { result ≡ self.now }
    {
        Row {
            earlier: unpack_pos(self.has_earlier, self.earlier),
            inside: unpack_pos(self.is_inside, self.inside),
        }
    }
}

/// The nearest deciders of the nodes of a body.
#[derive(Drop)]
pub struct Deciders {
    rows: Vec<PackedRow>,
    exits: Vec<Option<Pos>>,
}

impl Model for Deciders {
    ghost use Rattle.control_deps.specs.Nearest.{Table};

    ghost Value = { Table };

    ghost view = { λ d. record { rows = d.rows.items; exits = d.exits.items } };
}

/// The number of the body, and of the block, loop or if at a position.
fn number(one: Option<Pos>) -> usize
    ensures { result ≡ number one }
{
    match one {
        None => 0,
        Some(block) => block.0 as usize + 1,
    }
}

/// Whether a loop is at a position.
fn is_loop(spots: &[Packed], block: Pos) -> bool
    ensures { result ≡ loops_at (slice_get spots.now block.0) }
{
    match spots.get(block.0 as usize) {
        Some(spot) => spot.get().form == Form::Loop,
        None => false,
    }
}

/// What is directly around, where it is a loop.
fn loop_around(spots: &[Packed], around: Option<Pos>) -> Option<Pos>
    ensures { result ≡ loop_around spots.now around }
{
    match around {
        Some(block) => {
            if is_loop(spots, block) {
                Some(block)
            } else {
                None
            }
        }
        None => None,
    }
}

/// The last branch that leaves the body or a block, as far as there is one.
fn exit_of(exits: &[Option<Pos>], one: Option<Pos>) -> Option<Pos>
    ensures { result ≡ exit_of exits.now one }
{
    match exits.get(number(one)) {
        Some(exit) => *exit,
        None => None,
    }
}

/// What is kept of a position, where these are the last branches before it.
fn row_of(spots: &[Packed], exits: &[Option<Pos>], spot: Spot) -> Row
    ensures { result ≡ row_of spots.now exits.now spot }
{
    if !spot.live {
        return Row {
            earlier: None,
            inside: None,
        };
    }
    let earlier = exit_of(exits, spot.around);
    let inside = loop_around(spots, spot.around);
    Row { earlier, inside }
}

/// Writes a branch down for all that it leaves, from the first one to the label outwards.
fn mark(spots: &[Packed], exits: &mut [Option<Pos>], first: Option<Pos>, label: u32, branch: Pos)
    requires nested { AreNested spots.now }
    requires within { IfSome first (λ b. b.0 < length spots.now) }
    requires long { length exits.old ≡ length spots.now + 1 }
    ensures { Marks spots.now first label branch exits.old exits.new }
{
    let here = number(first);
    exits[here] = Some(branch);
    if label == 0 {
        return;
    }
    let Some(block) = first else {
        return;
    };
    let spot = spot_at(spots, block.0 as usize);
    mark(spots, exits, spot.around, label - 1, branch);
}

/// Writes a position down for all that it leaves, where it is a live branch.
fn see(spots: &[Packed], exits: &mut [Option<Pos>], at: Pos, spot: Spot)
    requires nested { AreNested spots.now }
    requires within { IfSome spot.around (λ b. b.0 < length spots.now) }
    requires long { length exits.old ≡ length spots.now + 1 }
    ensures { Sees spots.now at spot exits.old exits.new }
{
    if !spot.live {
        return;
    }
    if let Form::Branch(label) = spot.form {
        mark(spots, exits, spot.around, label, at);
    }
}

/// Goes past a position.
fn pass(
    spots: &[Packed],
    exits: &mut [Option<Pos>],
    rows: &mut Vec<PackedRow>,
    at: Pos,
) -> Result<(), NoMemory>
    requires nested { AreNested spots.now }
    requires here { at.0 < length spots.now }
    requires exits { AreExits spots.now at.0 exits.old }
    requires rows { AreRows spots.now at.0 rows.old.items }
    ensures long { length exits.new ≡ length exits.old }
    ensures exits { IfOk result (λ _. AreExits spots.now (at.0 + 1) exits.new) }
    ensures rows { IfOk result (λ _. AreRows spots.now (at.0 + 1) rows.new.items) }
{
    let spot = spot_at(spots, at.0 as usize);
    let row = PackedRow::of(row_of(spots, exits, spot));
    rows.push(row).map_err(|_| NoMemory)?;
    see(spots, exits, at, spot);
    Ok(())
}

impl Deciders {
    /// The nearest deciders of the nodes of the body that the nesting is of. An error comes only where an allocation is refused. It takes time by the
    /// positions, and for each branch by the blocks that it leaves.
    pub fn of(alloc: Global, nest: &Nest) -> Result<Deciders, NoMemory>
        ensures { IfOk result (λ deciders. AreNearest nest.now deciders) }
    {
        match nest.spots() {
            Some(spots) => {
                let deciders = Deciders::among(alloc, spots)?;
                Ok(deciders)
            }
            None => Ok(Deciders {
                rows: Vec::new(alloc),
                exits: Vec::new(alloc),
            }),
        }
    }

    /// The same, by the positions.
    fn among(alloc: Global, spots: &[Packed]) -> Result<Deciders, NoMemory>
        requires { AreNested spots.now }
        ensures { IfOk result (λ deciders. AreNearest spots.now deciders) }
    {
        let mut exits = vec![in alloc; None; spots.len() + 1].map_err(|_| NoMemory)?;
        let mut rows = Vec::with_capacity(alloc, spots.len()).map_err(|_| NoMemory)?;
        for at in 0..spots.len() {
            pass(spots, exits.as_mut_slice(), &mut rows, Pos(at as u32))?;
        }
        Ok(Deciders { rows, exits })
    }

    /// The nearest deciders of a node: none of what is no node. All ifs and branches that have a node in their shadow are found from it, by nearest deciders
    /// again, by what is directly around a position, and by the position of a join (`Finds`).
    pub fn nearest(&self, node: Node) -> Nearest
        ensures { result ≡ nearest_in self.now node }
    {
        match node {
            Node::At(pos) => self.nearest_at(pos),
            Node::Join(block) => Nearest {
                earlier: None,
                latest: exit_of(self.exits.as_slice(), Some(block)),
            },
            Node::Exit => Nearest {
                earlier: None,
                latest: exit_of(self.exits.as_slice(), None),
            },
        }
    }

    /// The nearest deciders of a position.
    fn nearest_at(&self, pos: Pos) -> Nearest
        ensures { result ≡ nearest_of_row self.now.exits (slice_get self.now.rows pos.0) }
    {
        match self.rows.get(pos.0 as usize) {
            Some(row) => nearest_of(self.exits.as_slice(), row.get()),
            None => Nearest {
                earlier: None,
                latest: None,
            },
        }
    }
}

/// The nearest deciders of a position with this row.
fn nearest_of(exits: &[Option<Pos>], row: Row) -> Nearest
    ensures { result ≡ nearest_of_row exits.now (Some row) }
{
    Nearest {
        earlier: row.earlier,
        latest: latest_in(exits, row.inside),
    }
}

/// The last branch that leaves a loop, where there is one.
fn latest_in(exits: &[Option<Pos>], inside: Option<Pos>) -> Option<Pos>
    ensures { result ≡ latest_in exits.now inside }
{
    match inside {
        Some(block) => exit_of(exits, Some(block)),
        None => None,
    }
}
