// A stack of frames in an array of bytes. A frame is a pattern with parts whose ways are gone through. While the last of its ways is gone
// through it is on the stack no more: so those that are have two parts or more, which take two entries of the agenda.
ghost use Rattle.std.specs.Prelude.{◌≡◌, ◌+◌, ◌*◌, ◌<◌, length};
ghost use Rattle.forming.specs.Frames.{frame_bytes, most_frames, frames_bytes, sizes_of, slot_at, frame_of, frame_at, onto, FrameFits, SlotPut, Stored, Advanced};

use crate::sizes::{Size, Sizes};
use tables::MOST_RECORDS;

// A frame takes two of the records of a table at least, so that no more are on the stack.
const MOST_FRAMES: usize = MOST_RECORDS / 2;

// The bytes of a frame: two for the names, and one for each of the other sixteen fields.
const FRAME_BYTES: usize = 18;

pub type Bytes = [u8; FRAME_BYTES];

type SizesBytes = [u8; 5];

// The bytes of all frames.
pub const FRAMES_BYTES: usize = MOST_FRAMES * FRAME_BYTES;

pub type Frames = [u8; FRAMES_BYTES];

// The record of the pattern; the entry of the agenda that has the part it meets, the entry that follows, and the first that is free; the way that is
// next, and how many there are; the names that had a value; whether the pattern is only a test; what its halves take; which of its parts are only
// tests, a bit for each; how many rows there were when the frame was opened; how many when its present way began; and whether its halves are to ask
// for items.
#[derive(Clone, Copy)]
pub struct Frame {
    pub p: usize,
    pub at: usize,
    pub next: usize,
    pub top: usize,
    pub way: usize,
    pub ways: usize,
    pub mask: usize,
    pub once: bool,
    pub sizes: Option<Sizes>,
    pub tests: usize,
    pub since: usize,
    pub seen: usize,
    pub asks: bool,
}

// The bytes of frame i.
fn slot(frames: &Frames, i: usize) -> Bytes
    requires { (i < most_frames) × (length frames.now ≡ frames_bytes) }
    ensures { result ≡ slot_at frames.now i }
{
    let mut bytes = [0u8; FRAME_BYTES];
    bytes.copy_from_slice(&frames[FRAME_BYTES * i..FRAME_BYTES * (i + 1)]);
    bytes
}

// The sizes from their five bytes: whether there are any, and of each half how many at least and whether there may be more.
fn sizes_of(b: SizesBytes) -> Option<Sizes>
    ensures { result ≡ sizes_of b }
{
    if b[0] != 1 {
        return None;
    }
    Some(Sizes {
        left: Size {
            least: b[1],
            more: b[2] == 1,
        },
        right: Size {
            least: b[3],
            more: b[4] == 1,
        },
    })
}

// A frame from its bytes.
fn frame_of(b: Bytes) -> Frame
    ensures { result ≡ frame_of b }
{
    let sizes = sizes_of([b[10], b[11], b[12], b[13], b[14]]);
    Frame {
        p: b[0] as usize,
        at: b[1] as usize,
        next: b[2] as usize,
        top: b[3] as usize,
        way: b[4] as usize,
        ways: b[6] as usize,
        mask: b[7] as usize + 256 * b[8] as usize,
        once: b[9] == 1,
        sizes,
        tests: b[15] as usize,
        since: b[16] as usize,
        seen: b[5] as usize,
        asks: b[17] == 1,
    }
}

// Frame i.
pub fn load(frames: &Frames, i: usize) -> Frame
    requires { (i < most_frames) × (length frames.now ≡ frames_bytes) }
    ensures { result ≡ frame_at frames.now i }
{
    let b = slot(frames, i);
    frame_of(b)
}

// The first free entry of the agenda in frame i.
pub fn top_of(frames: &Frames, i: usize) -> usize
    requires { (i < most_frames) × (length frames.now ≡ frames_bytes) }
    ensures { result ≡ (frame_at frames.now i).top }
{
    frames[FRAME_BYTES * i + 3] as usize
}

// The five bytes of sizes.
fn bytes_of_sizes(sizes: Option<Sizes>) -> SizesBytes
    ensures { (sizes_of result ≡ sizes) × (length result ≡ 5) }
{
    let Some(z) = sizes else {
        return [0; 5];
    };
    [
        1,
        z.left.least,
        u8::from(z.left.more),
        z.right.least,
        u8::from(z.right.more),
    ]
}

// The bytes of a frame.
fn bytes_of(f: Frame) -> Bytes
    requires { FrameFits f }
    ensures { (frame_of result ≡ f) × (length result ≡ frame_bytes) }
{
    let z = bytes_of_sizes(f.sizes);
    [
        f.p as u8,
        f.at as u8,
        f.next as u8,
        f.top as u8,
        f.way as u8,
        f.seen as u8,
        f.ways as u8,
        (f.mask % 256) as u8,
        (f.mask / 256 % 256) as u8,
        u8::from(f.once),
        z[0],
        z[1],
        z[2],
        z[3],
        z[4],
        f.tests as u8,
        f.since as u8,
        u8::from(f.asks),
    ]
}

// Writes the bytes of frame i.
fn put_slot(frames: &mut Frames, i: usize, bytes: Bytes)
    requires { (i < most_frames) × (length frames.old ≡ frames_bytes) × (length bytes ≡ frame_bytes) }
    ensures { SlotPut frames.old i bytes frames.new }
{
    frames[FRAME_BYTES * i..FRAME_BYTES * (i + 1)].copy_from_slice(&bytes);
}

// Writes frame i.
pub fn store(frames: &mut Frames, i: usize, f: Frame)
    requires { (i < most_frames) × (length frames.old ≡ frames_bytes) × FrameFits f }
    ensures { Stored frames.old i f frames.new }
{
    let bytes = bytes_of(f);
    put_slot(frames, i, bytes);
}

// Writes frame i, the last, where a way is left; how many frames there are.
pub fn advance(frames: &mut Frames, i: usize, f: Frame) -> usize
    requires { (i < most_frames) × (length frames.old ≡ frames_bytes) × FrameFits f }
    ensures { Advanced frames.old i f frames.new result }
{
    let way = f.way;
    if way < f.ways {
        store(frames, i, f);
        return i + 1;
    }
    i
}

// Writes the way that is next in frame i, the last, where it is one of so many, and how many rows there are; how many frames there are.
pub fn go_on(frames: &mut Frames, i: usize, way: usize, ways: usize, seen: usize) -> usize
    requires { (i < most_frames) × (length frames.old ≡ frames_bytes) × (ways < 256) × (ways ≡ (frame_at frames.old i).ways) × (seen < 256) }
    ensures { Advanced frames.old i (onto (frame_at frames.old i) way seen) frames.new result }
{
    if way < ways {
        frames[FRAME_BYTES * i + 4] = way as u8;
        frames[FRAME_BYTES * i + 5] = seen as u8;
        return i + 1;
    }
    i
}
