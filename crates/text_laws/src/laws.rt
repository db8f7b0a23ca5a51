//! Laws of the spelling.

ghost use Rattle.std.specs.Prelude.{◌≡◌, ◌<◌, ◌≤◌, ◌^◌, length, All, List, ℕ};
ghost use Rattle.wasm_types.specs.declared.module.Module.{Module};
ghost use Rattle.wasm_types.specs.Canon.{canon};
ghost use Rattle.wasm_types.specs.Modules.{Spells};
ghost use Rattle.wasm_types.specs.Sizes.{HasAtMost};
ghost use Rattle.wasm_types.specs.WellFormed.{IsU8, IsWellFormed};

/// A text spells at most one module.
pub fn law_one_module()
    ensures { (bytes : List ℕ) (m n : Module) → Spells bytes m → Spells bytes n → m ≡ n }
{}

/// The canonical spelling of a well-formed module spells it, and no other module.
pub fn law_canon()
    ensures spelled { (m : Module) → IsWellFormed m → length (canon m) < 2 ^ 32 → Spells (canon m) m }
    ensures alone { (m n : Module) → IsWellFormed m → length (canon m) < 2 ^ 32 → Spells (canon m) n → m ≡ n }
{}

/// No spelling of a module is shorter than the canonical one.
pub fn law_canon_is_shortest()
    ensures { (bytes : List ℕ) (m : Module) → Spells bytes m → length (canon m) ≤ length bytes }
{}

/// A module that bytes spell is well formed.
pub fn law_spelled_is_well_formed()
    ensures { (bytes : List ℕ) (m : Module) → Spells bytes m → All IsU8 bytes → IsWellFormed m }
{}

/// The lists of a module have no more entries than its text has bytes, in whichever spelling.
pub fn law_lists_are_short()
    ensures spelled { (bytes : List ℕ) (m : Module) → Spells bytes m → HasAtMost (length bytes) m }
    ensures canonical { (m : Module) → HasAtMost (length (canon m)) m }
{}
