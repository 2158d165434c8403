//! Reading a frame.

ghost use Rattle.std.specs.Prelude.{◌≡◌, ◌<◌, ◌≤◌, IfSome, length, take, drop};
ghost use Rattle.site_types.specs.Valid.{IsPanel, IsValid};
ghost use Rattle.panel_frames.specs.Bytes.{frame_in as frame_of_bytes, word_spelled};
ghost use Rattle.panel_frames.specs.Refusals.{refused_word, first_beyond as first_beyond_of, frame_read};
ghost use Rattle.panel_frames.specs.Grammar.{is_neighbour as neighbours, last_group as greatest_group};

use crate::frame_refusal::FrameRefusal;
use crate::fullest::fullest_words;
use crate::layout::{FRAME_BYTES, FROM_PLACE, GROUP_PLACE, WORD_BYTES, WORDS_PLACE};
use crate::print::push_words;
use arrayvec::ArrayVec;
use panel_links::Frame;
use site_types::{Site, Word};
use tick_units::Tick;

/// Reads a frame that came to a panel.
pub fn read_frame(
    site: &Site,
    digest: &[u8; 32],
    at: u8,
    bytes: &[u8],
) -> Result<Frame, FrameRefusal>
    requires site { IsValid site.now }
    requires at { IsPanel site.now at }
    ensures { result ≡ frame_read site.now digest.now at bytes.now }
{
    if bytes.len() != FRAME_BYTES {
        return Err(FrameRefusal::BadLength);
    }
    if bytes[..2] != b"FW"[..] {
        return Err(FrameRefusal::BadMagic);
    }
    if bytes[2..FROM_PLACE] != digest[..] {
        return Err(FrameRefusal::OtherSite);
    }
    let frame = frame_in(bytes);
    if !is_neighbour(site.panels, at, frame.from) {
        return Err(FrameRefusal::NotNeighbour(frame.from));
    }
    if frame.group > last_group(site.panels) {
        return Err(FrameRefusal::BadGroup(frame.group));
    }
    match bad_word(site, &frame, bytes) {
        Some(refusal) => Err(refusal),
        None => Ok(frame),
    }
}

// Whether a panel is next to one of so many in the ring.
fn is_neighbour(panels: u8, at: u8, from: u8) -> bool
    requires { (1 ≤ at) × (at ≤ panels) × (panels ≤ 8) }
    ensures { result ≡ neighbours panels at from }
{
    let left = if at == 1 { panels } else { at - 1 };
    let right = if at == panels { 1 } else { at + 1 };
    panels > 1 && (from == left || from == right)
}

fn last_group(panels: u8) -> u8
    ensures value { result ≡ greatest_group panels }
    ensures few { result ≤ 1 }
{
    if panels <= 4 { 0 } else { 1 }
}

// The refusal of a frame for the first byte of its words that is out of the grammar.
fn bad_word(site: &Site, frame: &Frame, bytes: &[u8]) -> Option<FrameRefusal>
    requires size { length bytes.now ≡ 136 }
    requires group { frame.now.group ≤ 1 }
    ensures { result ≡ refused_word site.now frame.now (drop 36 bytes.now) }
{
    let mut most = ArrayVec::new();
    push_words(&mut most, &fullest_words(site, frame));
    match first_beyond(bytes.split_at(WORDS_PLACE).1, most.as_slice()) {
        Some(place) => Some(FrameRefusal::BadWord {
            offset: (WORDS_PLACE + place) as u8,
        }),
        None => None,
    }
}

// The place of the first byte with a bit that the other of its place hasn't.
fn first_beyond(bytes: &[u8], most: &[u8]) -> Option<usize>
    requires { length bytes.now ≡ length most.now }
    ensures value { result ≡ first_beyond_of bytes.now most.now }
    ensures within { IfSome result (λ place. place < length bytes.now) }
{
    for place in 0..bytes.len() {
        if bytes[place] & most[place] != bytes[place] {
            return Some(place);
        }
    }
    None
}

// The frame that 136 bytes spell.
fn frame_in(bytes: &[u8]) -> Frame
    requires { length bytes.now ≡ 136 }
    ensures { result ≡ frame_of_bytes bytes.now }
{
    Frame {
        from: bytes[FROM_PLACE],
        group: bytes[GROUP_PLACE],
        words: [
            word_in(bytes.split_at(WORDS_PLACE).1),
            word_in(bytes.split_at(WORDS_PLACE + WORD_BYTES).1),
            word_in(bytes.split_at(WORDS_PLACE + 2 * WORD_BYTES).1),
            word_in(bytes.split_at(WORDS_PLACE + 3 * WORD_BYTES).1),
        ],
    }
}

// The word that the first 25 bytes spell.
#[tactic(auto, unfolding(crate::specs::Bytes::word_spelled))]
fn word_in(bytes: &[u8]) -> Word
    requires { 25 ≤ length bytes.now }
    ensures { result ≡ word_spelled bytes.now }
{
    Word {
        stamp: Tick(u64::from_be_bytes(front(bytes))),
        alarm: u32::from_be_bytes(front(bytes.split_at(8).1)),
        manual: u32::from_be_bytes(front(bytes.split_at(12).1)),
        released: u32::from_be_bytes(front(bytes.split_at(16).1)),
        first: u32::from_be_bytes(front(bytes.split_at(20).1)),
        fault: bytes[24] == 1,
    }
}

// The first bytes.
fn front<const N: usize>(bytes: &[u8]) -> [u8; N]
    requires { N ≤ length bytes.now }
    ensures { result ≡ take N bytes.now }
{
    let mut front = [0; N];
    front.copy_from_slice(bytes.split_at(N).0);
    front
}
