//! Constant expressions (section 3.3.7), and the globals that they initialise (section 3.4.4).

ghost use Rattle.std.specs.Prelude.{◌≡◌, ◌↔◌, IsTrue};
ghost use Rattle.wasm_types.specs.declared.place.Part.TheVariants as part;
ghost use Rattle.wasm_types.specs.Sizes.{HasAtMost};
ghost use Rattle.wasm_types.specs.Spaces.{global_import, imported};
ghost use Rattle.wasm_types.specs.Validity.{GlobalHolds, Holds, IsConstant};
ghost use Rattle.body_check.specs.Numbered.{Describes};
ghost use Rattle.wasm_validate.specs.First.{FindsNumber};

use body_check::Spaces;
use wasm_types::{GlobalDef, GlobalType, Instr, Module, ValType};

/// Whether a code is one constant of the type, or the value of an immutable global among these.
pub(crate) fn is_constant(globals: &[GlobalType], kind: ValType, code: &[Instr]) -> bool
    ensures { IsTrue result ↔ IsConstant globals.now kind code.now }
{
    let [instr] = code else {
        return false;
    };
    match instr {
        Instr::I32Const(_) => kind == ValType::I32,
        Instr::I64Const(_) => kind == ValType::I64,
        Instr::GlobalGet(global) => match globals.get(*global as usize) {
            Some(global) => global.kind == kind && !global.mutable,
            None => false,
        },
        _ => false,
    }
}

/// The types of the imported globals.
fn imported_types<'a>(m: &Module, spaces: &'a Spaces) -> &'a [GlobalType]
    requires { Describes spaces.now m.now }
    ensures { result.now ≡ imported global_import m.now.imports }
{
    let count = spaces.globals.len() - m.globals.len();
    &spaces.globals.as_slice()[..count]
}

/// Whether the initialiser of an own global is a constant of its type. It names imported globals alone.
fn global_holds(m: &Module, spaces: &Spaces, global: &GlobalDef) -> bool
    requires { Describes spaces.now m.now }
    ensures { IsTrue result ↔ GlobalHolds m.now global.now }
{
    let known = imported_types(m, spaces);
    is_constant(known, global.kind.kind, global.init.as_slice())
}

/// The first own global that isn't valid.
pub(crate) fn first_global(m: &Module, spaces: &Spaces) -> Option<u32>
    requires entries { HasAtMost 0x7FFF_FFFF m.now }
    requires described { Describes spaces.now m.now }
    ensures { FindsNumber (λ g. Holds m.now (part.GlobalAt g)) result }
{
    let imported = imported_types(m, spaces).len();
    for (k, global) in m.globals.as_slice().iter().enumerate() {
        if !global_holds(m, spaces, global) {
            return Some((imported + k) as u32);
        }
    }
    None
}
