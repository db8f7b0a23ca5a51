//! Laws of admission.

ghost use Rattle.std.specs.Prelude.{◌≡◌, ◌≢◌};
ghost use Rattle.wasm_types.specs.declared.module.Module.{Module};
ghost use Rattle.wasm_validate.specs.Admission.{IsAdmitted, Refuses};
ghost use Rattle.wasm_validate.specs.declared.refusal.AdmitEnd.{AdmitEnd};
ghost use Rattle.wasm_validate.specs.declared.refusal.AdmitEnd.TheVariants as end;

/// A module has one answer: it is admitted, or it has one refusal, unless memory is refused.
pub fn law_one_refusal()
    ensures one { (m : Module) (a b : AdmitEnd) → Refuses m a → Refuses m b → a ≢ end.Memory → b ≢ end.Memory → a ≡ b }
    ensures none { (m : Module) (a : AdmitEnd) → IsAdmitted m → Refuses m a → a ≡ end.Memory }
{}
