//! The bytes of types and of kinds (sections 5.3 and 5.5).

ghost use Rattle.std.specs.Prelude.{◌≡◌};
ghost use Rattle.wasm_types.specs.Types.{type_byte as type_code, kind_byte as kind_code, mutable_byte as mutable_code};
ghost use Rattle.wasm_types.specs.Sections.{export_byte as export_code};
ghost use Rattle.opcode_table.specs.Table.{ReadsBack};

use crate::table::{byte_of, item_at};
use wasm_types::{ExportKind, ValType};

macro_rules! types {
    ($direction:ident, $given:expr) => {
        $direction!($given;
            0x7F = (ValType::I32),
            0x7E = (ValType::I64),
            0x7D = (ValType::F32),
            0x7C = (ValType::F64),
        )
    };
}

macro_rules! kinds {
    ($direction:ident, $given:expr) => {
        $direction!($given;
            0x40 = (None),
            0x7F = (Some(ValType::I32)),
            0x7E = (Some(ValType::I64)),
            0x7D = (Some(ValType::F32)),
            0x7C = (Some(ValType::F64)),
        )
    };
}

macro_rules! mutabilities {
    ($direction:ident, $given:expr) => {
        $direction!($given;
            0x00 = (false),
            0x01 = (true),
        )
    };
}

macro_rules! exports {
    ($direction:ident, $given:expr) => {
        $direction!($given;
            0x00 = (ExportKind::Func),
            0x01 = (ExportKind::Table),
            0x02 = (ExportKind::Memory),
            0x03 = (ExportKind::Global),
        )
    };
}

/// The value type of a byte (section 5.3.1).
pub fn val_type(byte: u8) -> Option<ValType>
    ensures { ReadsBack type_code byte result }
{
    types!(item_at, byte)
}

/// The byte of a value type.
pub fn type_byte(kind: ValType) -> u8
    ensures { result ≡ type_code kind }
{
    types!(byte_of, kind)
}

/// The block type of a byte (section 5.3.2).
pub fn block_kind(byte: u8) -> Option<Option<ValType>>
    ensures { ReadsBack kind_code byte result }
{
    kinds!(item_at, byte)
}

/// The byte of a block type.
pub fn block_byte(kind: Option<ValType>) -> u8
    ensures { result ≡ kind_code kind }
{
    kinds!(byte_of, kind)
}

/// Whether a global can be set, by its byte (section 5.3.7).
pub fn mutable_of(byte: u8) -> Option<bool>
    ensures { ReadsBack mutable_code byte result }
{
    mutabilities!(item_at, byte)
}

/// The byte that says whether a global can be set.
pub fn mutable_byte(mutable: bool) -> u8
    ensures { result ≡ mutable_code mutable }
{
    mutabilities!(byte_of, mutable)
}

/// What is imported or exported, by its byte (sections 5.5.5 and 5.5.10).
pub fn export_kind(byte: u8) -> Option<ExportKind>
    ensures { ReadsBack export_code byte result }
{
    exports!(item_at, byte)
}

/// The byte that says what is imported or exported.
pub fn export_byte(kind: ExportKind) -> u8
    ensures { result ≡ export_code kind }
{
    exports!(byte_of, kind)
}
