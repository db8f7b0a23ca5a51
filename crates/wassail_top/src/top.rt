//! The call that does all that the program does.

ghost use Rattle.std.specs.Prelude.{All, ◌≡◌, ◌≢◌, ◌⊎◌, ◌≤◌, ℕ, List, None, Some, map, length};
ghost use Rattle.std.specs.String.{string_bytes};
ghost use Rattle.std.specs.declared.option.Option.{Option};
ghost use Rattle.std.specs.Io.KnownBytes.{Keeps};
ghost use Rattle.outside_io.specs.Causes.{Rose};
ghost use Rattle.wasm_types.specs.declared.module.Module.{Module};
ghost use Rattle.wasm_types.specs.Modules.{Spells};
ghost use Rattle.wasm_types.specs.Subset.{InSubset};
ghost use Rattle.wasm_types.specs.Validity.{IsValid};
ghost use Rattle.wasm_types.specs.WellFormed.{IsU8};
ghost use Rattle.wassail_top.specs.Answers.{Answers, HasAnswer, HasStatus, IsTaken, IsText, most_bytes};
ghost use Rattle.wassail_top.specs.Headline.{SliceHolds, SummaryHolds};
ghost use Rattle.wassail_top.specs.Orders.{Order};
ghost use Rattle.wassail_top.specs.Orders.Order.{slice, summary};
ghost use Rattle.wassail_top.specs.Outcome.{Answered, ReadFailed, WriteFailed};
ghost use Rattle.wassail_top.specs.Queries.{why_not_milled};
ghost use Rattle.wassail_top.specs.Refusals.{Answer};
ghost use Rattle.wassail_top.specs.Words.{IsNoCommand, mill_of, order_of};

use crate::deliver::deliver;
use crate::due::due;
use crate::status::Status;
use outside_io::{Sink, Source};
use std::alloc::Global;

/// Reads the words, reads `source` where they are a command about a module, and writes the answer to `out` and `err`. What
/// comes out is the exit status (`Status`); docs/COMMANDS.md says when each comes.
///
/// All is worked out, and all memory allocated, before the first write.
pub fn wassail<S: Source, O: Sink, E: Sink>(
    alloc: Global,
    words: &[String],
    source: &mut S,
    out: &mut O,
    err: &mut E,
) -> u8
    // Any status but 3, 4 and 5 is the answer's, and out and err gained the answer, all of it.
    ensures answered { result ≢ 3 → result ≢ 4 → result ≢ 5 → Answered (map string_bytes words.now)
        (S.left source.old) (S.left source.new) (O.held out.old) (O.held out.new) (E.held err.old) (E.held err.new) result }

    // A read failed, and err gained the line that says so.
    ensures read_fault { result ≡ 3 → ReadFailed (map string_bytes words.now) (S.left source.old) (S.left source.new)
        (S.faults source.old) (S.faults source.new) (O.held out.old) (O.held out.new) (E.held err.old) (E.held err.new) }

    // A write failed, and out and err gained fronts of what was due.
    ensures write_fault { result ≡ 4 → (Rose (O.faults out.old) (O.faults out.new) ⊎ Rose (E.faults err.old) (E.faults err.new))
        × WriteFailed (map string_bytes words.now) (S.left source.old) (S.left source.new) (S.faults source.old) (S.faults source.new)
        (O.held out.old) (O.held out.new) (E.held err.old) (E.held err.new) }

    // An allocation was refused, and nothing was written.
    ensures memory { result ≡ 5 → Keeps (O.held out.old) (O.held out.new) × Keeps (E.held err.old) (E.held err.new) }

    // Words that are no command about a module, as those of `mill` and those that are none at all, leave the source as it was.
    ensures untouched { order_of (map string_bytes words.now) ≡ None → source.new ≡ source.old }

    // The words are refused exactly where they are no command, unless a write fails or an allocation is refused.
    ensures words { IsNoCommand (map string_bytes words.now) → (result ≡ 2) ⊎ (result ≡ 4) ⊎ (result ≡ 5) }
    ensures words_only { result ≡ 2 → IsNoCommand (map string_bytes words.now) }

    // Where no count of faults rose, out and err gained the answer, unless an allocation is refused.
    ensures complete { ¬ Rose (S.faults source.old) (S.faults source.new) → ¬ Rose (O.faults out.old) (O.faults out.new)
        → ¬ Rose (E.faults err.old) (E.faults err.new) → (result ≡ 5) ⊎ Answered (map string_bytes words.now)
        (S.left source.old) (S.left source.new) (O.held out.old) (O.held out.new) (E.held err.old) (E.held err.new) result }

    // So the words of a command, a valid module of the subset that isn't too long and about which the query isn't refused, and no fault give status 0,
    // or for `run` and `trace` that of how the run ends, unless an allocation is refused.
    ensures succeeds { (order : Order) (bytes : List ℕ) (m : Module) → order_of (map string_bytes words.now) ≡ Some order
        → S.left source.old ≡ Some bytes → length bytes ≤ most_bytes → Spells bytes m → IsValid m → InSubset m → IsTaken order m
        → ¬ Rose (S.faults source.old) (S.faults source.new) → ¬ Rose (O.faults out.old) (O.faults out.new)
        → ¬ Rose (E.faults err.old) (E.faults err.new) → HasStatus order m result ⊎ (result ≡ 5) }

    // Status 0 of `slice`: a valid module that decodes as itself, whose slice follows the original.
    ensures slices { result ≡ 0 → (func at : ℕ) (name : List ℕ) → order_of (map string_bytes words.now) ≡ Some (slice func at name)
        → SliceHolds func at name (S.left source.old) (S.left source.new) (O.held out.old) (O.held out.new) (E.held err.old) (E.held err.new) }

    // Status 0 of `summary`: rows of a module's functions, and what they leave out of an output has no influence on it.
    ensures summaries { result ≡ 0 → (only : Option ℕ) → order_of (map string_bytes words.now) ≡ Some (summary only)
        → SummaryHolds only (S.left source.old) (S.left source.new) (O.held out.old) (O.held out.new) (E.held err.old) (E.held err.new) }

    // The words of `mill` with a number in its range, and no fault where it writes, give status 0, unless an allocation is refused.
    ensures reports { (n : ℕ) → mill_of (map string_bytes words.now) ≡ Some n → why_not_milled n ≡ None
        → ¬ Rose (O.faults out.old) (O.faults out.new) → ¬ Rose (E.faults err.old) (E.faults err.new) → (result ≡ 0) ⊎ (result ≡ 5) }
{
    let Ok(reply) = due(alloc, words, source) else {
        return Status::NoMemory.code();
    };
    match deliver(out, err, &reply) {
        Ok(()) => reply.status.code(),
        Err(_) => Status::WriteFailed.code(),
    }
}

/// Words that are texts, and the bytes of a source, have an answer: that none holds is impossible. The law builds no answer, since whether bytes spell
/// a module and whether that is valid are relations and no tests; the program does.
pub fn law_some_answer()
    ensures { (words : List (List ℕ)) (bytes : List ℕ) → All IsText words → All IsU8 bytes → ¬ ¬ HasAnswer words bytes }
{}

/// Words and the bytes of a source have at most one answer, so the clauses of `wassail` say which status it gives and which bytes.
pub fn law_one_answer()
    ensures { (words : List (List ℕ)) (bytes : List ℕ) (x y : Option (List ℕ)) (a b : Answer)
        → Answers words (Some bytes) x a → Answers words (Some bytes) y b → a ≡ b }
{}
