//! Types (section 5.3).

ghost use Rattle.std.specs.Prelude.{◌≡◌};
ghost use Rattle.wasm_types.specs.Standing.{Reads};
ghost use Rattle.wasm_types.specs.Types.{SpellsValType, SpellsFuncType, SpellsLimits, SpellsTableType, SpellsMutable, SpellsGlobalType};
ghost use Rattle.text_laws.proofs.SectionLemmas.{once_type, once_func_type, once_limits, once_table_type, once_global_type};
ghost use Rattle.wasm_decode.specs.Entries.{Any};
ghost use Rattle.wasm_decode.specs.Shapes.{func_type_makes};

use crate::list::{Byte, Vector};
use crate::production::{Made, Plain};
use leb_codec::read_u32;
use opcode_table::{mutable_of, val_type};
use sqlite_items::Items;
use wasm_types::{FuncType, GlobalType, Limits, ValType};

impl Plain for ValType {
    type Item = ValType;

    ghost spelled = { SpellsValType };

    ghost once = { once_type };

    fn find(bytes: &[u8], at: usize) -> Option<(ValType, usize)> {
        if at >= bytes.len() {
            return None;
        }
        let kind = val_type(bytes[at])?;
        Some((kind, at + 1))
    }
}

/// As a memory type too.
impl Plain for Limits {
    type Item = Limits;

    ghost spelled = { SpellsLimits };

    ghost once = { once_limits };

    #[tactic(auto, using(crate::proofs::PartLemmas::behind_stands, crate::proofs::PartLemmas::limits_none, crate::proofs::PartLemmas::behind_both))]
    fn find(bytes: &[u8], at: usize) -> Option<(Limits, usize)> {
        if at >= bytes.len() {
            return None;
        }
        match bytes[at] {
            0x00 => {
                let (min, end) = read_u32(bytes, at + 1)?;
                Some((Limits { min, max: None }, end))
            }
            0x01 => {
                let (min, middle) = read_u32(bytes, at + 1)?;
                let (max, end) = read_u32(bytes, middle)?;
                let max = Some(max);
                Some((Limits { min, max }, end))
            }
            _ => None,
        }
    }
}

pub(crate) struct TableType;

impl Plain for TableType {
    type Item = Limits;

    ghost spelled = { SpellsTableType };

    ghost once = { once_table_type };

    fn find(bytes: &[u8], at: usize) -> Option<(Limits, usize)> {
        if at >= bytes.len() || bytes[at] != 0x70 {
            return None;
        }
        Limits::find(bytes, at + 1)
    }
}

fn find_mutable(bytes: &[u8], at: usize) -> Option<(bool, usize)>
    ensures { Reads SpellsMutable bytes.now at result }
{
    if at >= bytes.len() {
        return None;
    }
    let mutable = mutable_of(bytes[at])?;
    Some((mutable, at + 1))
}

impl Plain for GlobalType {
    type Item = GlobalType;

    ghost spelled = { SpellsGlobalType };

    ghost once = { once_global_type };

    #[tactic(auto, using(text_laws::proofs::StandingLemmas::then_stands))]
    fn find(bytes: &[u8], at: usize) -> Option<(GlobalType, usize)> {
        let (kind, middle) = ValType::find(bytes, at)?;
        let (mutable, end) = find_mutable(bytes, middle)?;
        Some((GlobalType { kind, mutable }, end))
    }
}

impl Made for FuncType {
    type Parts = (Byte, (Vector<ValType>, Vector<ValType>));

    ghost spelled = { SpellsFuncType };

    ghost shallow = { Any };

    ghost made_of = { λ v f. (v.0 ≡ 0x60) × (v.1 ≡ (f.params, f.results)) };

    fn make(parts: (u8, (Items<ValType>, Items<ValType>))) -> Option<FuncType> {
        let (form, (params, results)) = parts;
        if form != 0x60 {
            return None;
        }
        Some(FuncType { params, results })
    }

    ghost once = { once_func_type };

    ghost makes = { func_type_makes };
}
