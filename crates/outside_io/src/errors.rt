// Why a call on a source or a sink gave nothing.
use thiserror::Error;

/// A call on a source or a sink failed: nothing was taken or appended, and its count of faults rose.
#[derive(Clone, Copy, Debug, PartialEq, Eq, Error)]
#[error("a read or a write failed")]
pub struct Failed;

/// Memory was wanted and isn't there.
#[derive(Clone, Copy, Debug, PartialEq, Eq, Error)]
#[error("no memory")]
pub struct NoMemory;
