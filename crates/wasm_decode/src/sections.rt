//! What stands in the sections without code (sections 5.2.4, 5.5.3, 5.5.5 and 5.5.10).

ghost use Rattle.std.specs.Prelude.{◌≡◌, refl, Decides, IsUtf8};
ghost use Rattle.wasm_types.specs.Sections.{SpellsName, SpellsImportKind, SpellsImport, SpellsExportKind, SpellsExport};
ghost use Rattle.text_laws.proofs.SectionLemmas.{once_name, once_import, once_import_kind, once_export_kind, once_export};
ghost use Rattle.wasm_decode.specs.Entries.{Any, ReadsName};
ghost use Rattle.wasm_decode.specs.Shapes.{made_of_parts, name_makes};

use crate::list::{Bytes, read_range};
use crate::production::{Made, Of, Plain};
use crate::types::TableType;
use leb_codec::read_u32;
use opcode_table::export_kind;
use simdutf8::basic::from_utf8;
use sqlite_items::Items;
use wasm_types::{Export, ExportKind, GlobalType, Import, ImportKind, Limits, Name};

/// Whether the bytes are UTF-8.
fn is_text(bytes: &[u8]) -> bool
    ensures { Decides result (IsUtf8 bytes.now) }
{
    from_utf8(bytes).is_ok()
}

/// Where the bytes of the name at `at` stand: their start, and their end, which is the name's end. `None` where none stands.
pub(crate) fn read_name(bytes: &[u8], at: usize) -> Option<(usize, usize)>
    ensures { ReadsName bytes.now at result }
{
    let (start, end) = read_range(bytes, at)?;
    if !is_text(&bytes[start..end]) {
        return None;
    }
    Some((start, end))
}

impl Made for Name {
    type Parts = Bytes;

    ghost spelled = { SpellsName };

    ghost shallow = { Any };

    ghost made_of = { λ bytes n. (bytes ≡ n.bytes) × IsUtf8 n.bytes };

    fn make(bytes: Items<u8>) -> Option<Name> {
        if !is_text(bytes.as_slice()) {
            return None;
        }
        Some(Name { bytes })
    }

    ghost once = { once_name };

    ghost makes = { name_makes };
}

impl Plain for ImportKind {
    type Item = ImportKind;

    ghost spelled = { SpellsImportKind };

    ghost once = { once_import_kind };

    #[tactic(auto, using(crate::proofs::PartLemmas::behind_stands, crate::proofs::PartLemmas::import_table_none, crate::proofs::PartLemmas::import_global_none))]
    fn find(bytes: &[u8], at: usize) -> Option<(ImportKind, usize)> {
        if at >= bytes.len() {
            return None;
        }
        match bytes[at] {
            0x00 => {
                let (kind, end) = read_u32(bytes, at + 1)?;
                Some((ImportKind::Func(kind), end))
            }
            0x01 => {
                let (limits, end) = TableType::find(bytes, at + 1)?;
                Some((ImportKind::Table(limits), end))
            }
            0x02 => {
                let (limits, end) = Limits::find(bytes, at + 1)?;
                Some((ImportKind::Memory(limits), end))
            }
            0x03 => {
                let (kind, end) = GlobalType::find(bytes, at + 1)?;
                Some((ImportKind::Global(kind), end))
            }
            _ => None,
        }
    }
}

impl Made for Import {
    type Parts = (Of<Name>, (Of<Name>, ImportKind));

    ghost spelled = { SpellsImport };

    ghost shallow = { Any };

    ghost made_of = { λ v i. v ≡ (i.module, (i.name, i.kind)) };

    fn make(parts: (Name, (Name, ImportKind))) -> Option<Import> {
        let (module, (name, kind)) = parts;
        Some(Import { module, name, kind })
    }

    ghost once = { once_import };

    ghost makes = { made_of_parts _ _ _ _ (λ v. (record { «module» = v.0; name = v.1.0; kind = v.1.1 }, refl)) (λ _ _. tt) (λ _ _. (tt, (tt, tt))) };
}

impl Plain for ExportKind {
    type Item = ExportKind;

    ghost spelled = { SpellsExportKind };

    ghost once = { once_export_kind };

    fn find(bytes: &[u8], at: usize) -> Option<(ExportKind, usize)> {
        if at >= bytes.len() {
            return None;
        }
        let kind = export_kind(bytes[at])?;
        Some((kind, at + 1))
    }
}

impl Made for Export {
    type Parts = (Of<Name>, (ExportKind, u32));

    ghost spelled = { SpellsExport };

    ghost shallow = { Any };

    ghost made_of = { λ v e. v ≡ (e.name, (e.kind, e.index)) };

    fn make(parts: (Name, (ExportKind, u32))) -> Option<Export> {
        let (name, (kind, index)) = parts;
        Some(Export { name, kind, index })
    }

    ghost once = { once_export };

    ghost makes = { made_of_parts _ _ _ _ (λ v. (record { name = v.0; kind = v.1.0; index = v.1.1 }, refl)) (λ _ _. tt) (λ _ _. (tt, (tt, tt))) };
}
