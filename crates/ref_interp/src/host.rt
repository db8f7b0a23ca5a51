//! Calls of imported functions, which the host's next reply answers.

ghost use Rattle.std.specs.Prelude.{◌≡◌, ◌*◌, ◌<◌, true, Some, All, List, length, map, option_to_list};
ghost use Rattle.std.specs.List.{list_all};
ghost use Rattle.wasm_types.specs.Hosts.{HostFunc, bytes_fit, host_of, result_fits};
ghost use Rattle.wasm_types.specs.Spaces.{globals_of, import_count};
ghost use Rattle.wasm_meaning.specs.Fits.{HaveTypes, global_type};
ghost use Rattle.wasm_meaning.specs.HostCalls.{bytes_after, host_results};
ghost use Rattle.wasm_meaning.specs.Operations.{number_of as numbered};
ghost use Rattle.ref_interp.specs.World.{AnswersAs, Writable, globals_written, host_call, world_of};

use crate::numbers::{kind_of, number_of, value_for};
use inst_make::Instance;
use run_store::{PageStore, fits};
use sqlite_items::Items;
use wasm_types::{Reason, ValType, ValidModule, Value};

/// The number of a result that fits.
fn result_number(kinds: &[ValType], reply: Option<i128>) -> Option<u64>
    requires { result_fits kinds.now reply ≡ true }
    ensures { option_to_list result ≡ map numbered (host_results kinds.now reply) }
{
    match (kinds, reply) {
        ([kind], Some(number)) => Some(number_of(value_for(*kind, number))),
        _ => None,
    }
}

/// Writes values to globals, in their order.
fn write_globals(globals: &mut Vec<Value>, writes: &[(u32, i128)])
    requires { All (Writable globals.old.items) writes.now }
    ensures { globals.new.items ≡ globals_written writes.now globals.old.items }
{
    for write in writes {
        let global = write.0 as usize;
        globals[global] = value_for(kind_of(globals[global]), write.1);
    }
}

/// Writes bytes to the memory, in the order of the writes.
fn write_bytes(store: &mut PageStore, writes: &[(u32, Items<u8>)])
    requires { list_all (bytes_fit true (length store.old.bytes)) writes.now ≡ true }
    ensures { store.new ≡ record store.old { bytes = bytes_after writes.now store.old.bytes } }
{
    for write in writes {
        let _within = store.write(u64::from(write.0), write.1.as_slice());
    }
}

/// The number of the result of a call of an imported function, or why it traps: `ReplyMissing` exactly where all replies were used, and
/// `ReplyUnfit` exactly where the next one doesn't fit.
pub(crate) fn call_host(
    m: &ValidModule,
    inst: &mut Instance,
    func: u32,
) -> Result<Option<u64>, Reason>
    requires import { func < import_count m.now }
    requires globals { HaveTypes inst.old.globals.items (map global_type (globals_of m.now)) }
    ensures answer { (H : HostFunc) → host_of m.now func ≡ Some H → AnswersAs result (world_of inst.new) (host_call H (world_of inst.old)) }
    ensures table { inst.new.entries.items ≡ inst.old.entries.items }
    ensures spent { inst.new.spent ≡ inst.old.spent }
{
    let Some(reply) = inst.script.next() else {
        return Err(Reason::ReplyMissing);
    };
    if !fits(m, func, reply, inst.store.pages()) {
        inst.script.advance();
        return Err(Reason::ReplyUnfit);
    }
    let number = match m.module().func_type(func) {
        Some(kind) => result_number(kind.results.as_slice(), reply.result),
        None => None,
    };
    write_globals(&mut inst.globals, reply.globals.as_slice());
    write_bytes(&mut inst.store, reply.bytes.as_slice());
    inst.script.advance();
    Ok(number)
}
