//! The law of the tables.

ghost use Rattle.std.specs.Prelude.{◌≡◌, ℕ, List, Option, Some, Bool};
ghost use Rattle.wasm_types.specs.declared.module.ValType.{ValType};
ghost use Rattle.wasm_types.specs.declared.module.ExportKind.{ExportKind};
ghost use Rattle.wasm_types.specs.declared.ops.NumOp.{NumOp};
ghost use Rattle.wasm_types.specs.declared.ops.LoadOp.{LoadOp};
ghost use Rattle.wasm_types.specs.declared.ops.StoreOp.{StoreOp};
ghost use Rattle.wasm_types.specs.declared.instr.Instr.{Instr};
ghost use Rattle.wasm_types.specs.Types.{type_byte, kind_byte, mutable_byte};
ghost use Rattle.wasm_types.specs.Sections.{export_byte};
ghost use Rattle.wasm_types.specs.Plain.{num_opcode, load_opcode, store_opcode, opcode, immediates, SpellsImmediates};
ghost use Rattle.opcode_table.specs.Table.{ReadsBack, Makes};

/// What is written is read again, and as nothing else: of an instruction, its opcode with what follows it.
pub fn law_read_back()
    ensures types { (v : ValType) (r : Option ValType) → ReadsBack type_byte (type_byte v) r → r ≡ Some v }
    ensures kinds { (v : Option ValType) (r : Option (Option ValType)) → ReadsBack kind_byte (kind_byte v) r → r ≡ Some v }
    ensures mutabilities { (v : Bool) (r : Option Bool) → ReadsBack mutable_byte (mutable_byte v) r → r ≡ Some v }
    ensures exports { (v : ExportKind) (r : Option ExportKind) → ReadsBack export_byte (export_byte v) r → r ≡ Some v }
    ensures operations { (v : NumOp) (r : Option NumOp) → ReadsBack num_opcode (num_opcode v) r → r ≡ Some v }
    ensures loads { (v : LoadOp) (r : Option LoadOp) → ReadsBack load_opcode (load_opcode v) r → r ≡ Some v }
    ensures stores { (v : StoreOp) (r : Option StoreOp) → ReadsBack store_opcode (store_opcode v) r → r ≡ Some v }
    ensures instructions { (i : Instr) (text : List ℕ) (r : Option Instr) → SpellsImmediates text (immediates i) → Makes (opcode i) (immediates i) r → r ≡ Some i }
{}
