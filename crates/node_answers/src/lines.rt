//! The lines that are answered.

ghost use Rattle.std.specs.Prelude.{◌≡◌, ◌≤◌, length};
ghost use Rattle.node_answers.specs.Lines.{frame_refusal_number as number_of_frame};
ghost use Rattle.node_answers.specs.Lines.{other_tick_line as other_tick_text};
ghost use Rattle.node_answers.specs.Lines.{refused_block_line as refused_block_text};
ghost use Rattle.node_answers.specs.Lines.{refused_frame_line as refused_frame_text};

use arrayvec::ArrayString;
use desk_ticks::BlockRefusal;
use itoa::Buffer;
use panel_frames::FrameRefusal;

/// What is answered to more bytes than a block may have.
pub const TOO_LONG_LINE: &str = "refused long\n";

/// What is answered to a frame that isn't taken.
pub fn refused_frame_line(refusal: FrameRefusal) -> ArrayString<64>
    ensures { result.bytes ≡ refused_frame_text refusal }
{
    let mut digits = Buffer::new();
    let mut line = ArrayString::new();
    line.push_str("refused frame ");
    line.push_str(digits.format(frame_refusal_number(refusal)));
    line.push_str("\n");
    line
}

fn frame_refusal_number(refusal: FrameRefusal) -> u8
    ensures { result ≡ number_of_frame refusal }
{
    match refusal {
        FrameRefusal::BadLength => 1,
        FrameRefusal::BadMagic => 2,
        FrameRefusal::OtherSite => 3,
        FrameRefusal::NotNeighbour(_) => 4,
        FrameRefusal::BadGroup(_) => 5,
        FrameRefusal::BadWord { .. } => 6,
    }
}

/// What is answered to a block with a line that is refused.
pub fn refused_block_line(refusal: BlockRefusal) -> ArrayString<64>
    ensures { result.bytes ≡ refused_block_text refusal }
{
    let mut digits = Buffer::new();
    let mut line = ArrayString::new();
    line.push_str("refused line ");
    line.push_str(digits.format(refusal.line));
    line.push_str(" ");
    line.push_str(digits.format(refusal.number));
    line.push_str("\n");
    line
}

/// What is answered to the block of another tick than the one that is expected.
pub fn other_tick_line(expected: u64, found: u64) -> ArrayString<64>
    ensures { result.bytes ≡ other_tick_text expected found }
{
    let mut digits = Buffer::new();
    let mut line = ArrayString::new();
    line.push_str("expected ");
    line.push_str(digits.format(expected));
    line.push_str(" found ");
    line.push_str(digits.format(found));
    line.push_str("\n");
    line
}
