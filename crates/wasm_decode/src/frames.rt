//! Sections as they stand, before their contents are read (section 5.5.2).

ghost use Rattle.std.specs.Prelude.{◌≡◌, ◌^◌, ◌<◌, Decides, length, take};
ghost use Rattle.wasm_types.specs.Modules.{MayFollow, header};
ghost use Rattle.wasm_decode.specs.Frames.{ReadsFrame, ReadsFrames};

use crate::list::read_range;
use crate::refusal::DecodeEnd;
use sqlite_items::Items;
use std::alloc::Global;

/// A section's id, and where its contents stand.
#[derive(Clone, Copy, Debug, PartialEq, Eq)]
pub(crate) struct Frame {
    pub(crate) id: u8,
    pub(crate) start: usize,
    pub(crate) end: usize,
}

/// Whether a section may stand after those up to the greatest id so far.
fn may_follow(last: u8, id: u8) -> bool
    ensures { Decides result (MayFollow last id) }
{
    id == 0 || (last < id && id <= 11)
}

/// The section at `at`, where the greatest id before it is `last`.
#[tactic(auto, using(crate::proofs::FrameLemmas::frame_stands, crate::proofs::FrameLemmas::no_id))]
fn read_frame(bytes: &[u8], at: usize, last: u8) -> Option<Frame>
    requires { at < length bytes.now }
    ensures { ReadsFrame bytes.now at last result }
{
    let id = bytes[at];
    if !may_follow(last, id) {
        return None;
    }
    let (start, end) = read_range(bytes, at + 1)?;
    Some(Frame { id, start, end })
}

const HEADER: [u8; 8] = [0x00, 0x61, 0x73, 0x6D, 0x01, 0x00, 0x00, 0x00];

fn has_header(bytes: &[u8]) -> bool
    ensures { Decides result (take 8 bytes.now ≡ header) }
{
    if bytes.len() < 8 {
        return false;
    }
    &bytes[..8] == HEADER.as_slice()
}

/// All sections, to the end of the input.
pub(crate) fn read_frames(alloc: Global, bytes: &[u8]) -> Result<Items<Frame>, DecodeEnd>
    requires { length bytes.now < 2 ^ 32 }
    ensures { ReadsFrames bytes.now result }
{
    if !has_header(bytes) {
        return Err(DecodeEnd::Header);
    }
    let mut frames = Items::new(alloc);
    let mut place = 8;
    let mut last = 0u8;
    while place < bytes.len() {
        let Some(frame) = read_frame(bytes, place, last) else {
            return Err(DecodeEnd::Frame {
                k: frames.len() as u32,
            });
        };
        let Ok(()) = frames.push(frame) else {
            return Err(DecodeEnd::Memory);
        };
        last = last.max(frame.id);
        place = frame.end;
    }
    Ok(frames)
}
