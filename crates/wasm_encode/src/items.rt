//! Lists, and the items that stand in the lists of sections (WebAssembly Core Specification 1.0, sections 5.1.3 and 5.5).

ghost use Rattle.std.specs.Prelude.{◌≡◌, ◌<◌, ◌^◌, ◌++◌, ℕ, List, length, All, OnOk};
ghost use Rattle.wasm_types.specs.declared.module.ValType.{ValType};
ghost use Rattle.wasm_types.specs.declared.module.FuncType.{FuncType};
ghost use Rattle.wasm_types.specs.declared.module.Limits.{Limits};
ghost use Rattle.wasm_types.specs.declared.module.LocalRun.{LocalRun};
ghost use Rattle.wasm_types.specs.Numbers.{shortest_u32};
ghost use Rattle.wasm_types.specs.Canon.{canon_each, canon_counted, canon_type, canon_func_type, canon_import, canon_import_kind, canon_limits, canon_global, canon_export, canon_elem, canon_run, canon_segment};
ghost use Rattle.wasm_types.specs.WellFormed.{ProperImport, ProperImportKind, ProperGlobal, ProperExport, ProperElem, ProperSegment};

use crate::code::write_instrs;
use crate::text::{write_byte, write_global_type, write_limits, write_sized, write_table_type};
use leb_codec::write_u32;
use opcode_table::{export_byte, type_byte};
use wasm_types::{
    DataSegment, Elem, Export, FuncType, GlobalDef, Import, ImportKind, Limits, LocalRun, NoMemory,
    ValType,
};

/// What has one canonical text.
pub(crate) trait Canonical {
    ghost text: { Self → List ℕ };

    /// What must hold of a value that is written.
    ghost proper: { Self → Type 0 };

    fn write(&self, out: &mut Vec<u8>) -> Result<(), NoMemory>
        requires proper { proper self.now }
        requires short { length (text self.now) < 2 ^ 32 }
        ensures { OnOk result (out.new.items ≡ out.old.items ++ text self.now) };
}

fn write_each<T: Canonical>(out: &mut Vec<u8>, items: &[T]) -> Result<(), NoMemory>
    requires proper { All T.proper items.now }
    requires short { length (canon_each T.text items.now) < 2 ^ 32 }
    ensures { OnOk result (out.new.items ≡ out.old.items ++ canon_each T.text items.now) }
{
    for item in items {
        item.write(out)?;
    }
    Ok(())
}

/// How many items there are, and these.
pub(crate) fn write_counted<T: Canonical>(out: &mut Vec<u8>, items: &[T]) -> Result<(), NoMemory>
    requires proper { All T.proper items.now }
    requires few { length items.now < 2 ^ 32 }
    requires short { length (canon_each T.text items.now) < 2 ^ 32 }
    ensures { OnOk result (out.new.items ≡ out.old.items ++ canon_counted T.text items.now) }
{
    write_u32(out, items.len() as u32)?;
    write_each(out, items)
}

impl Canonical for u32 {
    ghost text = { shortest_u32 };

    ghost proper = { λ n. Unit {0} };

    fn write(&self, out: &mut Vec<u8>) -> Result<(), NoMemory> {
        write_u32(out, *self)
    }
}

impl Canonical for ValType {
    ghost text = { canon_type };

    ghost proper = { λ kind. Unit {0} };

    fn write(&self, out: &mut Vec<u8>) -> Result<(), NoMemory> {
        write_byte(out, type_byte(*self))
    }
}

impl Canonical for LocalRun {
    ghost text = { canon_run };

    ghost proper = { λ run. Unit {0} };

    fn write(&self, out: &mut Vec<u8>) -> Result<(), NoMemory> {
        write_u32(out, self.count)?;
        write_byte(out, type_byte(self.kind))
    }
}

impl Canonical for FuncType {
    ghost text = { canon_func_type };

    ghost proper = { λ kind. Unit {0} };

    fn write(&self, out: &mut Vec<u8>) -> Result<(), NoMemory> {
        write_byte(out, 0x60)?;
        write_counted(out, self.params.as_slice())?;
        write_counted(out, self.results.as_slice())
    }
}

fn write_import_kind(out: &mut Vec<u8>, kind: &ImportKind) -> Result<(), NoMemory>
    ensures { OnOk result (out.new.items ≡ out.old.items ++ canon_import_kind kind.now) }
{
    match kind {
        ImportKind::Func(kind) => {
            write_byte(out, 0x00)?;
            write_u32(out, *kind)
        }
        ImportKind::Table(limits) => {
            write_byte(out, 0x01)?;
            write_table_type(out, limits)
        }
        ImportKind::Memory(limits) => {
            write_byte(out, 0x02)?;
            write_limits(out, limits)
        }
        ImportKind::Global(kind) => {
            write_byte(out, 0x03)?;
            write_global_type(out, kind)
        }
    }
}

impl Canonical for Import {
    ghost text = { canon_import };

    ghost proper = { ProperImport };

    fn write(&self, out: &mut Vec<u8>) -> Result<(), NoMemory> {
        write_sized(out, self.module.bytes.as_slice())?;
        write_sized(out, self.name.bytes.as_slice())?;
        write_import_kind(out, &self.kind)
    }
}

impl Canonical for Limits {
    ghost text = { canon_limits };

    ghost proper = { λ limits. Unit {0} };

    fn write(&self, out: &mut Vec<u8>) -> Result<(), NoMemory> {
        write_limits(out, self)
    }
}

impl Canonical for GlobalDef {
    ghost text = { canon_global };

    ghost proper = { ProperGlobal };

    fn write(&self, out: &mut Vec<u8>) -> Result<(), NoMemory> {
        write_global_type(out, &self.kind)?;
        write_instrs(out, self.init.as_slice())
    }
}

impl Canonical for Export {
    ghost text = { canon_export };

    ghost proper = { ProperExport };

    fn write(&self, out: &mut Vec<u8>) -> Result<(), NoMemory> {
        write_sized(out, self.name.bytes.as_slice())?;
        write_byte(out, export_byte(self.kind))?;
        write_u32(out, self.index)
    }
}

impl Canonical for Elem {
    ghost text = { canon_elem };

    ghost proper = { ProperElem };

    fn write(&self, out: &mut Vec<u8>) -> Result<(), NoMemory> {
        write_u32(out, self.table)?;
        write_instrs(out, self.offset.as_slice())?;
        write_counted(out, self.funcs.as_slice())
    }
}

impl Canonical for DataSegment {
    ghost text = { canon_segment };

    ghost proper = { ProperSegment };

    fn write(&self, out: &mut Vec<u8>) -> Result<(), NoMemory> {
        write_u32(out, self.memory)?;
        write_instrs(out, self.offset.as_slice())?;
        write_sized(out, self.bytes.as_slice())
    }
}
