ghost use Rattle.std.specs.Prelude.{◌≡◌};
ghost use Rattle.node_inputs.specs.Inputs.{IsOwnInput, what_came};
ghost use Rattle.site_types.specs.Valid.{IsPanel, IsValid};

use crate::blocks::own_tick_of_block;
use crate::octets::note_octets;
use desk_ticks::{BlockRefusal, MOST_BLOCK_BYTES};
use panel_frames::{FrameRefusal, read_frame};
use panel_links::Frame;
use site_types::Site;

/// What came to a panel by itself.
#[derive(Clone, Copy, Debug)]
pub enum NodeInput {
    /// Nothing.
    Nothing,
    /// A frame that the panel may get.
    Framed(Frame),
    /// A frame that it may not get.
    BadFrame(FrameRefusal),
    /// A block that begins this tick, all of whose lines are accepted.
    Block(u64),
    /// A block with a line that is refused.
    BadBlock(BlockRefusal),
    /// More bytes than a block may have.
    TooLong,
}

/// Tells what bytes are that came to a panel.
pub fn read_input(site: &Site, digest: &[u8; 32], panel: u8, bytes: &[u8]) -> NodeInput
    requires site { IsValid site.now }
    requires panel { IsPanel site.now panel }
    ensures came { result ≡ what_came site.now digest.now panel bytes.now }
    ensures grammar { IsOwnInput site.now panel result }
{
    if bytes.is_empty() {
        return NodeInput::Nothing;
    }
    if bytes[0] == b'F' {
        return match read_frame(site, digest, panel, bytes) {
            Ok(frame) => {
                note_octets(bytes);
                NodeInput::Framed(frame)
            }
            Err(refusal) => NodeInput::BadFrame(refusal),
        };
    }
    if bytes.len() > MOST_BLOCK_BYTES {
        return NodeInput::TooLong;
    }
    match own_tick_of_block(site, panel, bytes) {
        Ok(tick) => NodeInput::Block(tick),
        Err(refusal) => NodeInput::BadBlock(refusal),
    }
}
