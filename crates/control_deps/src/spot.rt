//! What is kept of a position.

ghost use Rattle.std.specs.Prelude.{◌≡◌, ◌<◌, Some, length, max, slice_get};
ghost use Rattle.control_deps.specs.Packing.{form_back, pos_back};
ghost use Rattle.control_deps.specs.Spots.{form_of, greatest};

use std::marker::Model;
use wasm_types::{Instr, Pos};

/// What an instruction is: a block, a loop, an if, a branch with the outermost of its targets, or none of these.
#[derive(Clone, Copy, Debug, PartialEq, Eq)]
pub(crate) enum Form {
    Other,
    Block,
    Loop,
    If,
    Branch(u32),
}

/// A position: the innermost block, loop or if around it, where its instruction ends with all that it holds, whether it is live, and what it is.
#[derive(Clone, Copy, Debug, PartialEq, Eq)]
pub(crate) struct Spot {
    pub(crate) around: Option<Pos>,
    pub(crate) stop: u32,
    pub(crate) live: bool,
    pub(crate) form: Form,
}

/// What an instruction is, without the target of a branch.
#[derive(Clone, Copy)]
pub(crate) enum FormKind {
    Other,
    Block,
    Loop,
    If,
    Branch,
}

/// A position in sixteen bytes, since there is one for each.
#[derive(Drop)]
pub(crate) struct Packed {
    around: u32,
    stop: u32,
    label: u32,
    form: FormKind,
    inside: bool,
    live: bool,
}

impl Model for Packed {
    ghost use Rattle.control_deps.specs.declared.spot.Spot.{Spot};
    ghost use Rattle.control_deps.specs.Packing.{form_back, pos_back};

    ghost Value = { Spot };

    ghost view = { λ p. record { around = pos_back p.inside p.around; stop = p.stop; live = p.live; form = form_back p.form p.label } };
}

/// Whether there is a position, and its number.
pub(crate) fn pack_pos(pos: Option<Pos>) -> (bool, u32)
    ensures { pos_back result.0 result.1 ≡ pos }
{
    match pos {
        Some(pos) => (true, pos.0),
        None => (false, 0),
    }
}

/// The position of a number, where there is one.
pub(crate) fn unpack_pos(there: bool, number: u32) -> Option<Pos>
    ensures { result ≡ pos_back there number }
{
    if there { Some(Pos(number)) } else { None }
}

fn pack_form(form: Form) -> (FormKind, u32)
    ensures { form_back result.0 result.1 ≡ form }
{
    match form {
        Form::Other => (FormKind::Other, 0),
        Form::Block => (FormKind::Block, 0),
        Form::Loop => (FormKind::Loop, 0),
        Form::If => (FormKind::If, 0),
        Form::Branch(label) => (FormKind::Branch, label),
    }
}

fn unpack_form(form: FormKind, label: u32) -> Form
    ensures { result ≡ form_back form label }
{
    match form {
        FormKind::Other => Form::Other,
        FormKind::Block => Form::Block,
        FormKind::Loop => Form::Loop,
        FormKind::If => Form::If,
        FormKind::Branch => Form::Branch(label),
    }
}

impl Packed {
    pub(crate) fn of(spot: Spot) -> Packed
        ensures { result ≡ spot }
    {
        let (inside, around) = pack_pos(spot.around);
        let (form, label) = pack_form(spot.form);
        Packed {
            around,
            stop: spot.stop,
            label,
            form,
            inside,
            live: spot.live,
        }
    }

    pub(crate) fn get(&self) -> Spot
        ensures { result ≡ self.now }
    {
        Spot {
            around: unpack_pos(self.inside, self.around),
            stop: self.stop,
            live: self.live,
            form: unpack_form(self.form, self.label),
        }
    }
}

/// What is kept of a position.
pub(crate) fn spot_at(spots: &[Packed], at: usize) -> Spot
    requires { at < length spots.now }
    ensures { slice_get spots.now at ≡ Some result }
{
    spots[at].get()
}

/// The greater number.
fn greater(first: u32, second: u32) -> u32
    ensures { result ≡ max first second }
{
    if first < second { second } else { first }
}

/// The outermost label of a table.
fn outermost(some: &[u32], other: u32) -> u32
    ensures { result ≡ greatest other some.now }
{
    let mut label = other;
    for next in some {
        label = greater(label, *next);
    }
    label
}

/// What an instruction is that holds no others, where so many blocks, loops and ifs are around it.
pub(crate) fn plain_form(instr: &Instr, depth: u32) -> Form
    ensures { result ≡ form_of depth instr.now }
{
    match instr {
        Instr::Br(label) => Form::Branch(*label),
        Instr::BrIf(label) => Form::Branch(*label),
        Instr::BrTable(some, other) => Form::Branch(outermost(some.as_slice(), *other)),
        Instr::Return => Form::Branch(depth),
        _ => Form::Other,
    }
}
