//! Where the numbers of the module's own functions and globals begin: the imported ones come first (section 2.5.1).

ghost use Rattle.std.specs.Prelude.{◌≡◌, length};
ghost use Rattle.wasm_types.specs.Sizes.{HasAtMost};
ghost use Rattle.wasm_types.specs.Spaces.{global_import, import_count, imported};
ghost use Rattle.body_check.specs.Numbered.{Describes};

use body_check::Spaces;
use wasm_types::Module;

/// The number of the module's first own function.
#[tactic(auto, using(crate::proofs::LimitLemmas::few_imports))]
pub(crate) fn first_own_func(m: &Module, spaces: &Spaces) -> u32
    requires described { Describes spaces.now m.now }
    requires entries { HasAtMost 0x7FFF_FFFF m.now }
    ensures { result ≡ import_count m.now }
{
    (spaces.funcs.len() - m.funcs.len()) as u32
}

/// The number of the module's first own global.
#[tactic(auto, using(crate::proofs::LimitLemmas::few_imports))]
pub(crate) fn first_own_global(m: &Module, spaces: &Spaces) -> u32
    requires described { Describes spaces.now m.now }
    requires entries { HasAtMost 0x7FFF_FFFF m.now }
    ensures { result ≡ length (imported global_import m.now.imports) }
{
    (spaces.globals.len() - m.globals.len()) as u32
}
