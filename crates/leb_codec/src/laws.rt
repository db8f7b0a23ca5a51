//! Laws of the spellings.

ghost use Rattle.std.specs.Prelude.{◌≡◌, ◌<◌, ◌≤◌, ◌^◌, ◌++◌, ℕ, List, length};
ghost use Rattle.wasm_types.specs.Numbers.{SpellsU32, SpellsS32, SpellsS64, shortest_u32, shortest_s32, shortest_s64};

/// What is written of an unsigned number is a text of it, and no text of it is shorter.
pub fn law_shortest_unsigned()
    ensures spelled { (n : ℕ) → n < 2 ^ 32 → SpellsU32 (shortest_u32 n) n }
    ensures least { (n : ℕ) (text : List ℕ) → SpellsU32 text n → length (shortest_u32 n) ≤ length text }
{}

/// What is written of a signed number is a text of it, and no text of it is shorter.
pub fn law_shortest_signed()
    ensures spelled_32 { (n : ℕ) → n < 2 ^ 32 → SpellsS32 (shortest_s32 n) n }
    ensures spelled_64 { (n : ℕ) → n < 2 ^ 64 → SpellsS64 (shortest_s64 n) n }
    ensures least_32 { (n : ℕ) (text : List ℕ) → SpellsS32 text n → length (shortest_s32 n) ≤ length text }
    ensures least_64 { (n : ℕ) (text : List ℕ) → SpellsS64 text n → length (shortest_s64 n) ≤ length text }
{}

/// A text spells at most one number, and no text of a number begins a text of another: so what was written is read again, whatever follows it.
pub fn law_one_text()
    ensures unsigned { (a b x y : List ℕ) (m n : ℕ) → SpellsU32 a m → SpellsU32 b n → a ++ x ≡ b ++ y → (a ≡ b) × (m ≡ n) }
    ensures signed_32 { (a b x y : List ℕ) (m n : ℕ) → SpellsS32 a m → SpellsS32 b n → a ++ x ≡ b ++ y → (a ≡ b) × (m ≡ n) }
    ensures signed_64 { (a b x y : List ℕ) (m n : ℕ) → SpellsS64 a m → SpellsS64 b n → a ++ x ≡ b ++ y → (a ≡ b) × (m ≡ n) }
{}
