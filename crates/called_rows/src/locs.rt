//! The numbers of locations.

ghost use Rattle.std.specs.Prelude.{◌≡◌, ◌+◌, ◌<◌, IsTrue, ◌↔◌, false, slice_index_or, true};
ghost use Rattle.called_rows.specs.Locs as spec;

use wasm_types::Loc;

/// The number of a location in a module with so many globals: the locals come last.
pub(crate) fn loc_number(globals: u32, loc: Loc) -> usize
    ensures { result ≡ spec.loc_number globals loc }
{
    match loc {
        Loc::Mem => 0,
        Loc::Size => 1,
        Loc::Host => 2,
        Loc::Global(global) => global as usize + 3,
        Loc::Local(local) => local as usize + globals as usize + 3,
    }
}

/// The location of a number, locals left out.
pub(crate) fn loc_at(globals: u32, index: usize) -> Loc
    requires { index < globals + 3 }
    ensures number { spec.loc_number globals result ≡ index }
    ensures there { spec.IsLoc globals 0 result }
{
    match index {
        0 => Loc::Mem,
        1 => Loc::Size,
        2 => Loc::Host,
        _ => Loc::Global((index - 3) as u32),
    }
}

/// Whether a mark stands at the number of a location.
pub(crate) fn is_marked(globals: u32, marks: &[bool], loc: Loc) -> bool
    ensures { IsTrue result ↔ spec.IsMarkedAt globals marks.now loc }
{
    match marks.get(loc_number(globals, loc)) {
        Some(mark) => *mark,
        None => false,
    }
}
