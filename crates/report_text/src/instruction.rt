//! Instructions by their names and immediates. Each function fails only where an allocation is refused.

ghost use Rattle.std.specs.Prelude.{◌≡◌, ◌+◌, ◌++◌, ◌≤◌, decimal, length, OnOk};
ghost use Rattle.std.specs.Fmt.{signed_decimal};
ghost use Rattle.report_text.specs.Drafts.{written};
ghost use Rattle.report_text.specs.InstructionTexts as texts;
ghost use Rattle.report_text.specs.InstructionTexts.{front_text, instruction_text, number_after, numbers_after, operation_name};
ghost use Rattle.report_text.specs.Placed.{Placed};

use crate::draft::Draft;
use crate::place::{MOST_DIGITS, place_byte, place_number, place_signed, place_text};
use std::alloc::AllocError;
use wasm_types::{
    BinOp, Instr, LoadOp, LowOp, MemArg, NumOp, RelOp, StoreOp, UnOp, ValType, Width,
};

/// The name of a type.
fn type_name(kind: ValType) -> &'static str
    ensures is { result.now ≡ texts.type_name kind }
    ensures short { length result.now ≤ 16 }
{
    match kind {
        ValType::I32 => "i32",
        ValType::I64 => "i64",
        ValType::F32 => "f32",
        ValType::F64 => "f64",
    }
}

/// What stands before the name of an operation.
fn width_prefix(op: Width) -> &'static str
    ensures is { result.now ≡ texts.width_prefix op }
    ensures short { length result.now ≤ 16 }
{
    match op {
        Width::W32 => "i32.",
        Width::W64 => "i64.",
    }
}

/// The name of an operation on one integer.
fn unary_name(op: UnOp) -> &'static str
    ensures is { result.now ≡ texts.unary_name op }
    ensures short { length result.now ≤ 16 }
{
    match op {
        UnOp::Clz => "clz",
        UnOp::Ctz => "ctz",
        UnOp::Popcnt => "popcnt",
    }
}

/// The name of a comparison.
fn relation_name(op: RelOp) -> &'static str
    ensures is { result.now ≡ texts.relation_name op }
    ensures short { length result.now ≤ 16 }
{
    match op {
        RelOp::Eq => "eq",
        RelOp::Ne => "ne",
        RelOp::LtS => "lt_s",
        RelOp::LtU => "lt_u",
        RelOp::GtS => "gt_s",
        RelOp::GtU => "gt_u",
        RelOp::LeS => "le_s",
        RelOp::LeU => "le_u",
        RelOp::GeS => "ge_s",
        RelOp::GeU => "ge_u",
    }
}

/// The name of an operation on two integers.
fn binary_name(op: BinOp) -> &'static str
    ensures is { result.now ≡ texts.binary_name op }
    ensures short { length result.now ≤ 16 }
{
    match op {
        BinOp::Add => "add",
        BinOp::Sub => "sub",
        BinOp::Mul => "mul",
        BinOp::DivS => "div_s",
        BinOp::DivU => "div_u",
        BinOp::RemS => "rem_s",
        BinOp::RemU => "rem_u",
        BinOp::And => "and",
        BinOp::Or => "or",
        BinOp::Xor => "xor",
        BinOp::Shl => "shl",
        BinOp::ShrS => "shr_s",
        BinOp::ShrU => "shr_u",
        BinOp::Rotl => "rotl",
        BinOp::Rotr => "rotr",
    }
}

/// The name of a sign extension.
fn extension_name(op: LowOp) -> &'static str
    ensures is { result.now ≡ texts.extension_name op }
    ensures short { length result.now ≤ 16 }
{
    match op {
        LowOp::I32S8 => "i32.extend8_s",
        LowOp::I32S16 => "i32.extend16_s",
        LowOp::I64S8 => "i64.extend8_s",
        LowOp::I64S16 => "i64.extend16_s",
        LowOp::I64S32 => "i64.extend32_s",
    }
}

/// The name of a load.
fn load_name(op: LoadOp) -> &'static str
    ensures is { result.now ≡ texts.load_name op }
    ensures short { length result.now ≤ 16 }
{
    match op {
        LoadOp::I32 => "i32.load",
        LoadOp::I64 => "i64.load",
        LoadOp::I32S8 => "i32.load8_s",
        LoadOp::I32U8 => "i32.load8_u",
        LoadOp::I32S16 => "i32.load16_s",
        LoadOp::I32U16 => "i32.load16_u",
        LoadOp::I64S8 => "i64.load8_s",
        LoadOp::I64U8 => "i64.load8_u",
        LoadOp::I64S16 => "i64.load16_s",
        LoadOp::I64U16 => "i64.load16_u",
        LoadOp::I64S32 => "i64.load32_s",
        LoadOp::I64U32 => "i64.load32_u",
    }
}

/// The name of a store.
fn store_name(op: StoreOp) -> &'static str
    ensures is { result.now ≡ texts.store_name op }
    ensures short { length result.now ≤ 16 }
{
    match op {
        StoreOp::I32 => "i32.store",
        StoreOp::I64 => "i64.store",
        StoreOp::I32B8 => "i32.store8",
        StoreOp::I32B16 => "i32.store16",
        StoreOp::I64B8 => "i64.store8",
        StoreOp::I64B16 => "i64.store16",
        StoreOp::I64B32 => "i64.store32",
    }
}

/// Adds a text.
#[inline]
pub(crate) fn push_text(out: &mut Draft, text: &str) -> Result<(), AllocError>
    ensures { OnOk result (written out.new ≡ written out.old ++ text.now) }
{
    out.reserve(text.len())?;
    out.len = place_text(out.bytes.as_mut_slice(), out.len, text.as_bytes());
    Ok(())
}

/// Adds a number.
#[inline]
pub(crate) fn push_number(out: &mut Draft, number: u32) -> Result<(), AllocError>
    ensures { OnOk result (written out.new ≡ written out.old ++ decimal number) }
{
    out.reserve(MOST_DIGITS)?;
    out.len = place_number(out.bytes.as_mut_slice(), out.len, number);
    Ok(())
}

/// A space and a number.
#[inline(always)]
fn place_number_after(buf: &mut [u8], at: usize, number: u32) -> usize
    requires { at + 11 ≤ length buf.old }
    ensures placed { Placed buf.old buf.new at (number_after number) result }
    ensures short { result ≤ at + 11 }
{
    let behind = place_byte(buf, at, b' ');
    place_number(buf, behind, number)
}

/// Adds a space and a number.
fn push_number_after(out: &mut Draft, number: u32) -> Result<(), AllocError>
    ensures { OnOk result (written out.new ≡ written out.old ++ number_after number) }
{
    out.reserve(1 + MOST_DIGITS)?;
    out.len = place_number_after(out.bytes.as_mut_slice(), out.len, number);
    Ok(())
}

/// Adds a space and a number, for each of them.
fn push_numbers_after(out: &mut Draft, numbers: &[u32]) -> Result<(), AllocError>
    ensures { OnOk result (written out.new ≡ written out.old ++ numbers_after numbers.now) }
{
    for number in numbers {
        push_number_after(out, *number)?;
    }
    Ok(())
}

/// The name of an operation of a width.
#[inline(always)]
fn place_of_width(buf: &mut [u8], at: usize, width: Width, name: &str) -> usize
    requires room { at + 32 ≤ length buf.old }
    requires short { length name.now ≤ 16 }
    ensures placed { Placed buf.old buf.new at (texts.width_prefix width ++ name.now) result }
    ensures short { result ≤ at + 32 }
{
    let behind = place_text(buf, at, width_prefix(width).as_bytes());
    place_text(buf, behind, name.as_bytes())
}

/// The name of an operation on integers.
fn place_operation(buf: &mut [u8], at: usize, op: NumOp) -> usize
    requires room { at + 32 ≤ length buf.old }
    ensures placed { Placed buf.old buf.new at (operation_name op) result }
    ensures short { result ≤ at + 32 }
{
    match op {
        NumOp::Eqz(width) => place_of_width(buf, at, width, "eqz"),
        NumOp::Rel(width, op) => place_of_width(buf, at, width, relation_name(op)),
        NumOp::Un(width, op) => place_of_width(buf, at, width, unary_name(op)),
        NumOp::Bin(width, op) => place_of_width(buf, at, width, binary_name(op)),
        NumOp::Wrap => place_text(buf, at, b"i32.wrap_i64"),
        NumOp::ExtendS => place_text(buf, at, b"i64.extend_i32_s"),
        NumOp::ExtendU => place_text(buf, at, b"i64.extend_i32_u"),
        NumOp::Low(op) => place_text(buf, at, extension_name(op).as_bytes()),
    }
}

/// The name of a load or a store, its alignment exponent and its offset.
fn place_access(buf: &mut [u8], at: usize, name: &str, place: MemArg) -> usize
    requires room { at + 38 ≤ length buf.old }
    requires short { length name.now ≤ 16 }
    ensures placed { Placed buf.old buf.new at (name.now ++ (number_after place.align ++ number_after place.offset)) result }
    ensures short { result ≤ at + 38 }
{
    let named = place_text(buf, at, name.as_bytes());
    let aligned = place_number_after(buf, named, place.align);
    place_number_after(buf, aligned, place.offset)
}

/// Adds a name, and the type of a block, loop or if where it has a result.
pub(crate) fn push_block(
    out: &mut Draft,
    name: &str,
    kind: Option<ValType>,
) -> Result<(), AllocError>
    ensures { OnOk result (written out.new ≡ written out.old ++ texts.block_text name.now kind) }
{
    push_text(out, name)?;
    let Some(kind) = kind else {
        return Ok(());
    };
    push_text(out, " ")?;
    push_text(out, type_name(kind))
}

/// A name, a space and a number.
#[inline(always)]
fn place_named(buf: &mut [u8], at: usize, name: &str, number: u32) -> usize
    requires room { at + 27 ≤ length buf.old }
    requires short { length name.now ≤ 16 }
    ensures placed { Placed buf.old buf.new at (name.now ++ number_after number) result }
    ensures short { result ≤ at + 27 }
{
    let behind = place_text(buf, at, name.as_bytes());
    place_number_after(buf, behind, number)
}

/// Adds the labels of a table and its default.
#[cold]
#[inline(never)]
fn push_table(out: &mut Draft, labels: &[u32], other: u32) -> Result<(), AllocError>
    ensures { OnOk result (written out.new ≡ written out.old ++ (numbers_after labels.now ++ number_after other)) }
{
    push_numbers_after(out, labels)?;
    push_number_after(out, other)
}

/// A name and a number with its sign.
fn place_constant(buf: &mut [u8], at: usize, name: &str, number: i64) -> usize
    requires room { at + 36 ≤ length buf.old }
    requires short { length name.now ≤ 16 }
    ensures placed { Placed buf.old buf.new at (name.now ++ signed_decimal number) result }
    ensures short { result ≤ at + 36 }
{
    let behind = place_text(buf, at, name.as_bytes());
    place_signed(buf, behind, number)
}

/// The most bytes of an instruction without the labels of a table.
const MOST_WORDS: usize = 38;

/// An instruction that holds no others and is none on floats: its name, and its immediates, each after a space, but for the labels of
/// a table.
#[inline(always)]
fn place_instruction(buf: &mut [u8], at: usize, instr: &Instr) -> usize
    requires { at + 38 ≤ length buf.old }
    ensures placed { Placed buf.old buf.new at (front_text instr.now) result }
    ensures short { result ≤ at + 38 }
{
    match instr {
        Instr::Unreachable => place_text(buf, at, b"unreachable"),
        Instr::Nop => place_text(buf, at, b"nop"),
        Instr::Drop => place_text(buf, at, b"drop"),
        Instr::Select => place_text(buf, at, b"select"),
        Instr::Return => place_text(buf, at, b"return"),
        Instr::Block(_, _) => at,
        Instr::Loop(_, _) => at,
        Instr::If(_, _, _) => at,
        Instr::Br(label) => place_named(buf, at, "br", *label),
        Instr::BrIf(label) => place_named(buf, at, "br_if", *label),
        Instr::BrTable(_, _) => place_text(buf, at, b"br_table"),
        Instr::Call(func) => place_named(buf, at, "call", *func),
        Instr::CallIndirect(kind) => place_named(buf, at, "call_indirect", *kind),
        Instr::LocalGet(local) => place_named(buf, at, "local.get", *local),
        Instr::LocalSet(local) => place_named(buf, at, "local.set", *local),
        Instr::LocalTee(local) => place_named(buf, at, "local.tee", *local),
        Instr::GlobalGet(global) => place_named(buf, at, "global.get", *global),
        Instr::GlobalSet(global) => place_named(buf, at, "global.set", *global),
        Instr::Load(op, place) => place_access(buf, at, load_name(*op), *place),
        Instr::Store(op, place) => place_access(buf, at, store_name(*op), *place),
        Instr::MemorySize => place_text(buf, at, b"memory.size"),
        Instr::MemoryGrow => place_text(buf, at, b"memory.grow"),
        Instr::I32Const(n) => place_constant(buf, at, "i32.const ", i64::from(n.cast_signed())),
        Instr::I64Const(n) => place_constant(buf, at, "i64.const ", n.cast_signed()),
        Instr::Num(op) => place_operation(buf, at, *op),
        Instr::Float(_) => at,
        Instr::MemoryCopy => place_text(buf, at, b"memory.copy"),
        Instr::MemoryFill => place_text(buf, at, b"memory.fill"),
    }
}

/// Adds an instruction that holds no others and is none on floats: its name, and its immediates, each after a space.
#[inline(always)]
pub(crate) fn push_instruction(out: &mut Draft, instr: &Instr) -> Result<(), AllocError>
    ensures { OnOk result (written out.new ≡ written out.old ++ instruction_text instr.now) }
{
    out.reserve(MOST_WORDS)?;
    out.len = place_instruction(out.bytes.as_mut_slice(), out.len, instr);
    match instr {
        Instr::BrTable(labels, other) => push_table(out, labels.as_slice(), *other),
        _ => Ok(()),
    }
}
