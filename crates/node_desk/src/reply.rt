use desk_ticks::BlockRefusal;
use panel_frames::FrameRefusal;

/// What is replied to what came.
#[derive(Clone, Copy)]
pub enum Reply {
    /// The frame of the panel.
    Frame,
    /// The frame that came isn't taken.
    BadFrame(FrameRefusal),
    /// The part of the tick that was run in the text.
    Tick,
    /// The block that came is of another tick.
    OtherTick { expected: u64, found: u64 },
    /// A line of the block is refused.
    BadBlock(BlockRefusal),
    /// More came than a block may have.
    TooLong,
}
