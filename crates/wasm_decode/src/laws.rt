//! Laws of decoding.

ghost use Rattle.std.specs.Prelude.{◌≡◌, ◌≢◌, Err, List, Result, ℕ};
ghost use Rattle.wasm_decode.specs.Decode.{Decodes};
ghost use Rattle.wasm_decode.specs.declared.refusal.DecodeEnd.{DecodeEnd};
ghost use Rattle.wasm_decode.specs.declared.refusal.DecodeEnd.TheVariants as end;
ghost use Rattle.wasm_types.specs.declared.module.Module.{Module};

/// Bytes have one answer: one module or one refusal, unless memory is refused.
pub fn law_one_answer()
    ensures { (bytes : List ℕ) (r s : Result Module DecodeEnd) → Decodes bytes r → Decodes bytes s → r ≢ Err end.Memory → s ≢ Err end.Memory → r ≡ s }
{}
