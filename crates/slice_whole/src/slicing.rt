//! Slices of functions.

ghost use Rattle.std.specs.Prelude.{◌≡◌, ◌+◌, ◌*◌, ◌^◌, ◌<◌, ◌≤◌, IfOk, length};
ghost use Rattle.wasm_types.specs.Canon.{canon};
ghost use Rattle.wasm_types.specs.Subset.{IsSealed, WithinLimits, most_read};
ghost use Rattle.wasm_types.specs.WellFormed.{IsWellFormed};
ghost use Rattle.flow_domain.specs.Sliced.{appended, func_count};
ghost use Rattle.slice_whole.specs.declared.slicing.SliceRefusal.TheVariants as SliceRefusal;
ghost use Rattle.slice_whole.specs.Slices.{FindsNew, IsShortFor, Slices, is_exported};

use crate::keeping::kept_named;
use sqlite_items::Items;
use stack_names::end_names;
use stack_repair::{CutBody, cut};
use std::alloc::Global;
use thiserror::Error;
use wasm_types::{Body, Export, ExportKind, Module, Name, NoMemory, Pos, ValidModule};

/// A sliced module, the number of its new function, and where the watched instruction stands in it.
#[derive(Drop)]
pub struct Sliced {
    pub module: ValidModule,
    pub func: u32,
    pub at: Pos,
}

/// Why a module isn't sliced. The first cause that holds is answered.
#[derive(Clone, Copy, Debug, PartialEq, Eq, Error)]
pub enum SliceRefusal {
    /// No function has the number.
    #[error("no such function")]
    NoFunction,
    /// The function is imported.
    #[error("function {func} is imported")]
    Imported { func: u32 },
    /// The body has only so many instructions.
    #[error("the body has {count} instructions")]
    NoInstruction { count: u32 },
    /// The instruction is never reached.
    #[error("the instruction is dead")]
    Dead { at: Pos },
    /// An export has the name.
    #[error("the name is taken")]
    NameTaken,
    /// An allocation was refused.
    #[error("memory refused")]
    Memory,
}

impl From<NoMemory> for SliceRefusal {
    ghost from_gives = { λ _ refusal. refusal ≡ SliceRefusal.Memory };

    fn from(_e: NoMemory) -> SliceRefusal {
        SliceRefusal::Memory
    }
}

/// What is put into the module: a function of a type number, with this body, and where the watched instruction stands in it.
#[derive(Drop)]
pub struct NewFunc {
    pub kind: u32,
    pub body: Body,
    pub at: Pos,
}

/// Whether an export has the name.
fn is_exported(exports: &[Export], name: &[u8]) -> bool
    ensures { result ≡ is_exported exports.now name.now }
{
    for export in exports {
        if export.name.bytes.as_slice() == name {
            return true;
        }
    }
    false
}

/// The module with one function more, of a type number and a body, which is exported by a name.
fn append(
    alloc: Global,
    given: Module,
    kind: u32,
    body: Body,
    name: &str,
) -> Result<Module, NoMemory>
    requires { func_count given < 2 ^ 32 }
    ensures { IfOk result (λ m. m ≡ appended given kind body (record { bytes = name.now })) }
{
    let mut module = given;
    let index = module.func_count();
    let bytes = Items::from_slice(alloc, name.as_bytes())?;
    module.funcs.push(kind)?;
    module.bodies.push(body)?;
    module.exports.push(Export {
        name: Name { bytes },
        kind: ExportKind::Func,
        index,
    })?;
    Ok(module)
}

/// The type number of the new function, its body, and where the watched instruction went; or the first refusal.
fn new_func(
    alloc: Global,
    given: &ValidModule,
    func: u32,
    at: Pos,
    name: &[u8],
) -> Result<NewFunc, SliceRefusal>
    ensures { FindsNew given.now func at.0 name.now result }
{
    let module = given.module();
    let count = module.func_count();
    if func >= count {
        return Err(SliceRefusal::NoFunction);
    }
    let Some(body) = module.body(func) else {
        return Err(SliceRefusal::Imported { func });
    };
    let positions = body.count();
    if at.0 >= positions {
        return Err(SliceRefusal::NoInstruction { count: positions });
    }
    let names = end_names(alloc, given, func)?;
    if !names.live(at) {
        return Err(SliceRefusal::Dead { at });
    }
    if is_exported(module.exports.as_slice(), name) {
        return Err(SliceRefusal::NameTaken);
    }
    let kept = kept_named(alloc, given, func, &names, at)?;
    let CutBody { body, at } = cut(alloc, given, func, &names, &kept, at)?;
    let own = func as usize + module.funcs.len() - count as usize;
    let Some(kind) = module.funcs.get(own) else {
        unreachable!()
    };
    Ok(NewFunc {
        kind: *kind,
        body,
        at,
    })
}

/// The sliced module: one function more, the cut of own function `func` at position `at`, which is exported as `name`. It refuses a number that no own
/// function has, a position that the body doesn't have or that is dead, a name that an export has, and then only where an allocation is refused.
pub fn slice(
    alloc: Global,
    given: ValidModule,
    func: u32,
    at: Pos,
    name: &str,
) -> Result<Sliced, SliceRefusal>
    requires limits { WithinLimits most_read given }
    requires short { length (canon given) < 2 ^ 28 }
    requires name { length name.now < 2 ^ 28 }
    ensures slices { Slices given func at.0 (record { bytes = name.now }) result }

    // The slice is short, and can be written.
    ensures body { IfOk result (λ made. IsShortFor given func made.module) }
    ensures sealed { IfOk result (λ made. IsSealed made.module) }
    ensures well_formed { IfOk result (λ made. IsWellFormed made.module) }
    ensures length { IfOk result (λ made. length (canon made.module) ≤ 5 * length (canon given) + length name.now + 64) }
{
    let NewFunc { kind, body, at } = new_func(alloc, &given, func, at, name.as_bytes())?;
    let given = given.into_module();
    let number = given.func_count();
    let module = append(alloc, given, kind, body, name)?;
    Ok(Sliced {
        module: ValidModule::seal(module),
        func: number,
        at,
    })
}
