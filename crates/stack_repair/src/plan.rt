//! What a cut goes by: which places are present, and of what type they are.

ghost use Rattle.std.specs.Prelude.{◌≡◌, ◌+◌, ◌*◌, ◌<◌, ◌^◌, IfOk, None, replicate};
ghost use Rattle.wasm_types.specs.Nodes.{At, Join};
ghost use Rattle.stack_names.specs.Found.{goes_on, top_places};
ghost use Rattle.stack_names.specs.Named.{of_node, operands_in, stack_in};
ghost use Rattle.flow_domain.specs.KeptSets.{holds};
ghost use Rattle.stack_repair.specs.Told.{any_kept_end, count_present, dropped_for, ends_kept, filled_for, is_kept_end, kept_kind, noted, noted_to, present_in, shown_kind, taken_kind, told};

use block_cfg::point_number;
use flow_domain::Kept;
use stack_names::{Names, Node, Place, Taker};
use std::alloc::Global;
use wasm_types::{Instr, NoMemory, Pos, ValType};

/// The names of a body's values, the kept nodes, the types of the values that kept instructions take, by the nodes that make them, and the watched position.
#[derive(Drop)]
pub(crate) struct Plan<'a> {
    pub(crate) names: &'a Names,
    pub(crate) kept: &'a Kept,
    pub(crate) kinds: Vec<Option<ValType>>,
    pub(crate) watched: Pos,
}

/// Whether what takes a value is the end of a kept block, loop or arm, or the end of the body.
fn is_kept_end(kept: &Kept, taker: Taker) -> bool
    ensures { result ≡ is_kept_end (holds kept.now) taker }
{
    match taker {
        Taker::End(Node::Join(block)) => kept.has(Node::At(block)),
        Taker::End(Node::Exit) => true,
        Taker::End(Node::At(_)) => false,
        Taker::Instr(_) => false,
    }
}

/// Whether one of them is.
fn any_kept_end(kept: &Kept, takers: &[Taker]) -> bool
    ensures { result ≡ any_kept_end (holds kept.now) takers.now }
{
    for taker in takers {
        if is_kept_end(kept, *taker) {
            return true;
        }
    }
    false
}

/// Whether a node is the end of a kept block, loop or if.
fn ends_kept(kept: &Kept, node: Node) -> bool
    ensures { result ≡ ends_kept (holds kept.now) node }
{
    match node {
        Node::Join(block) => kept.has(Node::At(block)),
        _ => false,
    }
}

/// The type of a value by what keeps it: `own` where a kept instruction takes it, and `left` where a kept end does.
fn kept_kind(own: Option<ValType>, left: Option<ValType>, ends: bool) -> Option<ValType>
    ensures { result ≡ kept_kind own left ends }
{
    match own {
        Some(kind) => Some(kind),
        None => { if ends { left } else { None } }
    }
}

/// Whether what stands after a live instruction is live.
pub(crate) fn goes_on(instr: &Instr) -> bool
    ensures { result ≡ goes_on instr.now }
{
    !matches!(
        instr,
        Instr::Br(_) | Instr::BrTable(_, _) | Instr::Return | Instr::Unreachable
    )
}

impl Plan<'_> {
    /// The type of the value that a node makes, where a kept instruction takes it.
    fn taken_kind(&self, node: Node) -> Option<ValType>
        ensures { result ≡ taken_kind (told self.now) node }
    {
        match self.kinds.get(point_number(node)) {
            Some(kind) => *kind,
            None => None,
        }
    }

    /// Whether the end of a kept sequence takes the value that a node makes.
    fn is_left(&self, node: Node) -> bool
        ensures { result ≡ any_kept_end (told self.now).kept (of_node (told self.now).names.takers node) }
    {
        any_kept_end(self.kept, self.names.takers(node))
    }

    /// Whether a place is present, by the node that makes it.
    fn is_present(&self, node: Node) -> bool
        ensures { result ≡ present_in (told self.now) node }
    {
        self.kept.has(node)
            || ends_kept(self.kept, node)
            || self.taken_kind(node).is_some()
            || self.is_left(node)
    }

    /// How many of the places are present.
    pub(crate) fn count_present(&self, places: &[Place]) -> usize
        ensures { result ≡ count_present (told self.now) places.now }
    {
        let mut count = 0;
        for place in places {
            if self.is_present(place.maker) {
                count += 1;
            }
        }
        count
    }

    /// The places that are dropped in the place of an unkept instruction, where they are present.
    pub(crate) fn dropped(&self, instr: &Instr, pos: Pos) -> &[Place]
        ensures { result.now ≡ dropped_for (told self.now) instr.now pos.0 }
    {
        match instr {
            Instr::Block(_, _) | Instr::Loop(_, _) => &[],
            Instr::Br(_) | Instr::BrTable(_, _) | Instr::Return | Instr::Unreachable => {
                self.names.stack(pos)
            }
            Instr::BrIf(_) => {
                let operands = self.names.operands(pos);
                &operands[operands.len().saturating_sub(1)..]
            }
            _ => self.names.operands(pos),
        }
    }

    /// The type of what a block, loop or if leaves, where that is present.
    fn shown_kind(&self, kind: Option<ValType>, pos: Pos) -> Option<ValType>
        ensures { result ≡ shown_kind (told self.now) kind pos.0 }
    {
        if self.is_present(Node::Join(pos)) {
            return kind;
        }
        None
    }

    /// The type of the value that stands for an instruction that holds no others and goes on, where one does.
    fn plainly_filled(&self, node: Node, left: Option<ValType>) -> Option<ValType>
        ensures { result ≡ kept_kind (taken_kind (told self.now) node) left (any_kept_end (told self.now).kept (of_node (told self.now).names.takers node)) }
    {
        kept_kind(self.taken_kind(node), left, self.is_left(node))
    }

    /// The type of the value that stands for an unkept instruction in a sequence with this result, where one does.
    pub(crate) fn filled(&self, instr: &Instr, pos: Pos, left: Option<ValType>) -> Option<ValType>
        ensures { result ≡ filled_for (told self.now) left instr.now pos.0 }
    {
        match instr {
            Instr::Block(kind, _) | Instr::Loop(kind, _) | Instr::If(kind, _, _) => {
                self.shown_kind(*kind, pos)
            }
            Instr::Br(_) | Instr::BrTable(_, _) | Instr::Return | Instr::Unreachable => left,
            Instr::BrIf(_) => None,
            _ => self.plainly_filled(Node::At(pos), left),
        }
    }
}

/// Notes the types of these values by the nodes that make them.
fn note(kinds: &mut Vec<Option<ValType>>, places: &[Place])
    ensures { kinds.new.items ≡ noted kinds.old.items places.now }
{
    for place in places {
        let number = point_number(place.maker);
        if number < kinds.len() {
            kinds[number] = Some(place.kind);
        }
    }
}

/// The types of the values that kept instructions take, by the nodes that make them.
pub(crate) fn taken_kinds(
    alloc: Global,
    kept: &Kept,
    names: &Names,
    count: u32,
) -> Result<Vec<Option<ValType>>, NoMemory>
    ensures { IfOk result (λ kinds. kinds.items ≡ noted_to (holds kept.now) names.now count (replicate (2 * count + 1) None)) }
{
    let nodes = 2 * count as usize + 1;
    let mut kinds = Vec::with_capacity(alloc, nodes).map_err(|_| NoMemory)?;
    for _ in 0..nodes {
        kinds.push(None).map_err(|_| NoMemory)?;
    }
    for at in 0..count {
        if kept.has(Node::At(Pos(at))) {
            note(&mut kinds, names.operands(Pos(at)));
        }
    }
    Ok(kinds)
}
