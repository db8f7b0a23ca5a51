//! A text that is being written.

ghost use Rattle.std.specs.Prelude.{◌≤◌, length};

use crate::front::Front;

/// A text that is being written: the first `len` bytes. What lies behind them is there already, so that one test serves for all bytes of a piece.
#[derive(Drop)]
pub(crate) struct Draft {
    pub(crate) bytes: Vec<u8>,
    pub(crate) len: usize,
    pub(crate) front: Front,
    ghost within: { len ≤ length bytes.items },
}
