//! Data segments.

ghost use Rattle.std.specs.Prelude.{◌≡◌, ℕ, ◌^◌, ◌<◌, ◌≤◌, length, All};
ghost use Rattle.typed_runs.specs.Start.{begins, data_after};
ghost use Rattle.wasm_types.specs.Hosts.{is_within};
ghost use Rattle.inst_make.specs.Starts.{FindsFirst, SegmentWithin};

use crate::constants::{lies_within, offset_of};
use run_store::PageStore;
use wasm_types::{DataSegment, Value};

/// Whether a segment lies within so many bytes.
fn is_segment_within(segment: &DataSegment, globals: &[Value], long: u64) -> bool
    ensures { result ≡ is_within (begins globals.now segment.now.offset) (length segment.now.bytes) long }
{
    lies_within(
        offset_of(globals, segment.offset.as_slice()),
        segment.bytes.len(),
        long,
    )
}

/// The number of the first segment that doesn't lie within so many bytes.
pub(crate) fn first_segment_out(
    segments: &[DataSegment],
    globals: &[Value],
    long: u64,
) -> Option<u32>
    requires { length segments.now < 2 ^ 32 }
    ensures { FindsFirst (SegmentWithin globals.now long) segments.now result }
{
    for (k, segment) in segments.iter().enumerate() {
        if !is_segment_within(segment, globals, long) {
            return Some(k as u32);
        }
    }
    None
}

/// Writes the bytes of each segment to a memory, in their order.
pub(crate) fn write_segments(store: &mut PageStore, segments: &[DataSegment], globals: &[Value])
    requires short { length store.old.bytes ≤ 2 ^ 32 }
    requires within { All (SegmentWithin globals.now (length store.old.bytes)) segments.now }
    ensures { store.new ≡ record store.old { bytes = data_after globals.now segments.now store.old.bytes } }
{
    for segment in segments {
        store.write(
            offset_of(globals, segment.offset.as_slice()),
            segment.bytes.as_slice(),
        );
    }
}
