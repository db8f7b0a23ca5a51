//! Which functions calls through the table can find: those of one class, which is a type and the functions of that type that may stand in the table.

ghost use Rattle.std.specs.Prelude.{◌≡◌, ℕ, ◌+◌, ◌^◌, ◌<◌, ◌≤◌, ◌↔◌, ◌⊎◌, Any, Bool, IfOk, IsTrue, Some, length, map, slice_get, vec_items};
ghost use Rattle.std.specs.List.{Contains};
ghost use Rattle.wasm_types.specs.declared.module.Elem.{Elem};
ghost use Rattle.wasm_types.specs.declared.module.Export.{Export};
ghost use Rattle.wasm_types.specs.declared.module.ExportKind.TheVariants as export;
ghost use Rattle.wasm_types.specs.declared.module.Import.{Import};
ghost use Rattle.wasm_types.specs.Hosts.{IsTableImport, MayStand, TableVisible};
ghost use Rattle.wasm_types.specs.Spaces.{func_types};
ghost use Rattle.body_check.specs.Numbered.{Describes};
ghost use Rattle.worklist.specs.Search.{IsMarked};
ghost use Rattle.call_graph.specs.Below.{AllBelow};
ghost use Rattle.call_graph.specs.Classes as spec;

use crate::acts::kind_of;
use crate::shape::shape;
use body_check::Spaces;
use indexmap::IndexSet;
use std::alloc::Global;
use wasm_types::{Elem, Export, ExportKind, FuncType, Import, ImportKind, Module, NoMemory};

/// The classes of a module, which are numbered.
#[derive(Drop)]
pub(crate) struct Classes {
    /// By function the class of its type, where it may stand in the table.
    pub(crate) by_func: Vec<Option<usize>>,
    /// By type number its class, where it has one.
    pub(crate) by_type: Vec<Option<usize>>,
    pub(crate) count: usize,
    ghost few: { length by_func.items < 2 ^ 32 },
    ghost counted: { count ≤ length by_func.items },
    ghost below_func: { AllBelow count by_func.items },
    ghost below_type: { AllBelow count by_type.items },
}

/// Whether the table is imported.
fn imports_table(imports: &[Import]) -> bool
    ensures { IsTrue result ↔ Any (λ (i : Import). IsTableImport i.kind) imports.now }
{
    imports
        .iter()
        .any(|import| matches!(import.kind, ImportKind::Table(_)))
}

/// Whether the table is exported.
fn exports_table(exports: &[Export]) -> bool
    ensures { IsTrue result ↔ Any (λ (e : Export). e.kind ≡ export.Table) exports.now }
{
    exports
        .iter()
        .any(|export| matches!(export.kind, ExportKind::Table))
}

/// Whether the host sees the table.
fn is_table_seen(m: &Module) -> bool
    ensures { IsTrue result ↔ TableVisible m.now }
{
    imports_table(m.imports.as_slice()) || exports_table(m.exports.as_slice())
}

/// Marks those of the functions that there are.
fn mark_each(marks: &mut [bool], funcs: &[u32])
    ensures { (f : ℕ) → f < length marks.new → (IsMarked marks.new f ↔ (IsMarked marks.old f ⊎ Contains funcs.now f)) }
{
    for func in funcs {
        if (*func as usize) < marks.len() {
            marks[*func as usize] = true;
        }
    }
}

/// Marks the functions that element segments name.
fn mark_named(marks: &mut [bool], elems: &[Elem])
    ensures { (f : ℕ) → f < length marks.new → (IsMarked marks.new f ↔ (IsMarked marks.old f ⊎ Any (λ (e : Elem). Contains e.funcs f) elems.now)) }
{
    for elem in elems {
        mark_each(marks, elem.funcs.as_slice());
    }
}

/// For each function whether it may stand in the table.
fn standing(alloc: Global, m: &Module, count: usize) -> Result<Vec<bool>, NoMemory>
    requires { count ≡ length (func_types m.now) }
    ensures length { IfOk result (λ marks. length marks.items ≡ count) }
    ensures exact { IfOk result (λ marks. (f : ℕ) → IsMarked marks.items f ↔ MayStand m.now f) }
{
    let seen = is_table_seen(m);
    let mut marks = vec![in alloc; seen; count].map_err(|_| NoMemory)?;
    mark_named(&mut marks, m.elems.as_slice());
    Ok(marks)
}

/// The class of a type, which is made where there is none.
fn make_class(
    alloc: Global,
    kind: &FuncType,
    shapes: &mut IndexSet<Vec<u8>>,
) -> Result<usize, NoMemory>
    requires { spec.AreApart (map vec_items shapes.old.keys) }
    ensures class { IfOk result (λ c. slice_get (map vec_items shapes.new.keys) c ≡ Some (spec.shape_of kind.now)) }
    ensures kept { IfOk result (λ _. spec.Keeps (map vec_items shapes.old.keys) (map vec_items shapes.new.keys)) }
    ensures apart { IfOk result (λ _. spec.AreApart (map vec_items shapes.new.keys)) }
    ensures longer { IfOk result (λ _. length shapes.new.keys ≤ length shapes.old.keys + 1) }
{
    let shape = shape(alloc, kind)?;
    let Ok((class, _)) = shapes.insert_full(shape) else {
        return Err(NoMemory);
    };
    Ok(class)
}

/// The class of a type, where there is one.
fn find_class(
    alloc: Global,
    kind: &FuncType,
    shapes: &IndexSet<Vec<u8>>,
) -> Result<Option<usize>, NoMemory>
    ensures { IfOk result (λ class. spec.IsFound (map vec_items shapes.now.keys) (spec.shape_of kind.now) class) }
{
    let shape = shape(alloc, kind)?;
    Ok(shapes.get_index_of(&shape))
}

/// The class of a function, where it may stand in the table.
fn class_of(
    alloc: Global,
    m: &Module,
    spaces: &Spaces,
    stands: bool,
    func: usize,
    shapes: &mut IndexSet<Vec<u8>>,
) -> Result<Option<usize>, NoMemory>
    requires described { Describes spaces.now m.now }
    requires stands { IsTrue stands ↔ MayStand m.now func }
    requires apart { spec.AreApart (map vec_items shapes.old.keys) }
    ensures class { IfOk result (λ class. spec.IsFuncClass m.now (map vec_items shapes.new.keys) func class) }
    ensures kept { IfOk result (λ _. spec.Keeps (map vec_items shapes.old.keys) (map vec_items shapes.new.keys)) }
    ensures apart { IfOk result (λ _. spec.AreApart (map vec_items shapes.new.keys)) }
    ensures longer { IfOk result (λ _. length shapes.new.keys ≤ length shapes.old.keys + 1) }
{
    if !stands {
        return Ok(None);
    }
    let Some(kind) = kind_of(m, spaces, func) else {
        return Ok(None);
    };
    let class = make_class(alloc, kind, shapes)?;
    Ok(Some(class))
}

/// By function its class.
fn classes_of_funcs(
    alloc: Global,
    m: &Module,
    spaces: &Spaces,
    stands: &[bool],
    shapes: &mut IndexSet<Vec<u8>>,
) -> Result<Vec<Option<usize>>, NoMemory>
    requires described { Describes spaces.now m.now }
    requires stands { (f : ℕ) → IsMarked stands.now f ↔ MayStand m.now f }
    requires apart { spec.AreApart (map vec_items shapes.old.keys) }
    requires empty { length shapes.old.keys ≡ 0 }
    ensures length { IfOk result (λ classes. length classes.items ≡ length stands.now) }
    ensures classes { IfOk result (λ classes. spec.AreFuncClasses m.now (map vec_items shapes.new.keys) classes.items) }
    ensures apart { IfOk result (λ _. spec.AreApart (map vec_items shapes.new.keys)) }
    ensures few { IfOk result (λ _. length shapes.new.keys ≤ length stands.now) }
{
    let mut classes = Vec::new(alloc);
    for (func, stand) in stands.iter().enumerate() {
        let class = class_of(alloc, m, spaces, *stand, func, shapes)?;
        classes.push(class).map_err(|_| NoMemory)?;
    }
    Ok(classes)
}

/// By type number its class.
fn classes_of_types(
    alloc: Global,
    types: &[FuncType],
    shapes: &IndexSet<Vec<u8>>,
) -> Result<Vec<Option<usize>>, NoMemory>
    ensures length { IfOk result (λ classes. length classes.items ≡ length types.now) }
    ensures classes { IfOk result (λ classes. spec.AreTypeClasses types.now (map vec_items shapes.now.keys) classes.items) }
{
    let mut classes = Vec::new(alloc);
    for kind in types {
        let class = find_class(alloc, kind, shapes)?;
        classes.push(class).map_err(|_| NoMemory)?;
    }
    Ok(classes)
}

impl Classes {
    ghost use Rattle.call_graph.specs.Tells.{AreAlike, TellsTargets};

    /// Those of a module. It fails only where an allocation is refused.
    pub(crate) fn of(alloc: Global, m: &Module, spaces: &Spaces) -> Result<Classes, NoMemory>
        requires described { Describes spaces.now m.now }
        requires few { length (func_types m.now) < 2 ^ 32 }
        ensures length { IfOk result (λ classes. length classes.by_func.items ≡ length (func_types m.now)) }
        ensures exact { IfOk result (λ classes. TellsTargets m.now classes) }
        ensures alike { IfOk result (λ classes. AreAlike m.now classes) }
    {
        let stands = standing(alloc, m, spaces.funcs.len())?;
        let mut shapes = IndexSet::new(alloc);
        let by_func = classes_of_funcs(alloc, m, spaces, &stands, &mut shapes)?;
        let by_type = classes_of_types(alloc, m.types.as_slice(), &shapes)?;
        Ok(Classes {
            by_func,
            by_type,
            count: shapes.len(),
        })
    }
}
