//! Loads and stores.

ghost use Rattle.std.specs.Prelude.{◌≡◌, ◌*◌, ◌<◌, ◌^◌, is_some, length};
ghost use Rattle.wasm_types.specs.Typing.{load_bytes as bytes_read, store_bytes as bytes_written};
ghost use Rattle.wasm_types.specs.Hosts.{is_within};
ghost use Rattle.wasm_meaning.specs.Memory.{bytes_of};
ghost use Rattle.run_store.specs.Pages.{IsWidth, after_write};
ghost use Rattle.ref_interp.specs.World.{loaded, loaded_number};

use num_ops::extend_low;
use run_store::PageStore;
use wasm_types::{LoadOp, LowOp, StoreOp};

/// How many bytes a load reads.
fn load_bytes(op: LoadOp) -> u32
    ensures same { result ≡ bytes_read op }
    ensures width { IsWidth result }
{
    match op {
        LoadOp::I32S8 | LoadOp::I32U8 | LoadOp::I64S8 | LoadOp::I64U8 => 1,
        LoadOp::I32S16 | LoadOp::I32U16 | LoadOp::I64S16 | LoadOp::I64U16 => 2,
        LoadOp::I32 | LoadOp::I64S32 | LoadOp::I64U32 => 4,
        LoadOp::I64 => 8,
    }
}

/// How many bytes a store writes.
fn store_bytes(op: StoreOp) -> u32
    ensures same { result ≡ bytes_written op }
    ensures width { IsWidth result }
{
    match op {
        StoreOp::I32B8 | StoreOp::I64B8 => 1,
        StoreOp::I32B16 | StoreOp::I64B16 => 2,
        StoreOp::I32 | StoreOp::I64B32 => 4,
        StoreOp::I64 => 8,
    }
}

/// The number that a load leaves of the number that it reads.
fn widen(op: LoadOp, number: u64) -> u64
    requires { number < 2 ^ (8 * bytes_read op) }
    ensures { result ≡ loaded_number op number }
{
    match op {
        LoadOp::I32S8 => extend_low(LowOp::I32S8, number),
        LoadOp::I32S16 => extend_low(LowOp::I32S16, number),
        LoadOp::I64S8 => extend_low(LowOp::I64S8, number),
        LoadOp::I64S16 => extend_low(LowOp::I64S16, number),
        LoadOp::I64S32 => extend_low(LowOp::I64S32, number),
        _ => number,
    }
}

/// What a load from an address leaves.
// Inlined with each operation by itself, so that nothing is asked of it any more.
#[inline(always)]
fn load_by(store: &PageStore, op: LoadOp, at: u64) -> Option<u64>
    requires { at < 2 ^ 33 }
    ensures { result ≡ loaded op at store.now.bytes }
{
    // What the store holds are bytes: its pages tell that of them.
    let _pages = store.pages();
    match store.load(at, load_bytes(op)) {
        Some(number) => Some(widen(op, number)),
        None => None,
    }
}

/// The number that a load from an address leaves: none exactly where it reads past the end.
pub(crate) fn load(store: &PageStore, op: LoadOp, at: u64) -> Option<u64>
    requires { at < 2 ^ 33 }
    ensures { result ≡ loaded op at store.now.bytes }
{
    match op {
        LoadOp::I32 => load_by(store, LoadOp::I32, at),
        LoadOp::I32S8 => load_by(store, LoadOp::I32S8, at),
        LoadOp::I32U8 => load_by(store, LoadOp::I32U8, at),
        LoadOp::I32S16 => load_by(store, LoadOp::I32S16, at),
        LoadOp::I32U16 => load_by(store, LoadOp::I32U16, at),
        LoadOp::I64 => load_by(store, LoadOp::I64, at),
        LoadOp::I64S8 => load_by(store, LoadOp::I64S8, at),
        LoadOp::I64U8 => load_by(store, LoadOp::I64U8, at),
        LoadOp::I64S16 => load_by(store, LoadOp::I64S16, at),
        LoadOp::I64U16 => load_by(store, LoadOp::I64U16, at),
        LoadOp::I64S32 => load_by(store, LoadOp::I64S32, at),
        LoadOp::I64U32 => load_by(store, LoadOp::I64U32, at),
    }
}

/// Writes the low bytes of a number to an address.
// Inlined with each operation by itself, so that nothing is asked of it any more.
#[inline(always)]
fn store_by(store: &mut PageStore, op: StoreOp, at: u64, number: u64) -> Option<()>
    requires { at < 2 ^ 33 }
    ensures answer { is_some result ≡ is_within at (bytes_written op) (length store.old.bytes) }
    ensures after { store.new ≡ after_write store.old at (bytes_of (bytes_written op) number) }
{
    store.store(at, store_bytes(op), number)
}

/// Writes the low bytes of a number to an address: none exactly where they don't all lie within, and then nothing changes.
pub(crate) fn store(store: &mut PageStore, op: StoreOp, at: u64, number: u64) -> Option<()>
    requires { at < 2 ^ 33 }
    ensures answer { is_some result ≡ is_within at (bytes_written op) (length store.old.bytes) }
    ensures after { store.new ≡ after_write store.old at (bytes_of (bytes_written op) number) }
{
    match op {
        StoreOp::I32 => store_by(store, StoreOp::I32, at, number),
        StoreOp::I32B8 => store_by(store, StoreOp::I32B8, at, number),
        StoreOp::I32B16 => store_by(store, StoreOp::I32B16, at, number),
        StoreOp::I64 => store_by(store, StoreOp::I64, at, number),
        StoreOp::I64B8 => store_by(store, StoreOp::I64B8, at, number),
        StoreOp::I64B16 => store_by(store, StoreOp::I64B16, at, number),
        StoreOp::I64B32 => store_by(store, StoreOp::I64B32, at, number),
    }
}
