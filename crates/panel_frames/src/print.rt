ghost use Rattle.std.specs.Prelude.{◌≡◌, ◌+◌, ◌≤◌, ◌++◌, [], length, if◌then◌else◌};
ghost use Rattle.panel_frames.specs.Bytes.{frame_bytes, word_bytes, words_bytes};

use arrayvec::ArrayVec;
use panel_links::Frame;
use site_types::Word;

/// Writes the bytes of a frame.
pub fn print_frame(digest: &[u8; 32], frame: &Frame, out: &mut ArrayVec<u8, 136>)
    requires { out.old.items ≡ [] }
    ensures { out.new.items ≡ frame_bytes digest.now frame.now }
{
    push(out, b"FW");
    push(out, digest);
    push(out, &[frame.from, frame.group]);
    push_words(out, &frame.words);
}

// Writes the bytes of four words.
pub(crate) fn push_words(out: &mut ArrayVec<u8, 136>, words: &[Word; 4])
    requires { length out.old.items ≤ 36 }
    ensures text { out.new.items ≡ out.old.items ++ words_bytes words.now }
    ensures room { length out.new.items ≡ length out.old.items + 100 }
{
    push_word(out, &words[0]);
    push_word(out, &words[1]);
    push_word(out, &words[2]);
    push_word(out, &words[3]);
}

#[tactic(auto, unfolding(crate::specs::Bytes::word_bytes))]
fn push_word(out: &mut ArrayVec<u8, 136>, word: &Word)
    requires { length out.old.items + 25 ≤ 136 }
    ensures text { out.new.items ≡ out.old.items ++ word_bytes word.now }
    ensures room { length out.new.items ≡ length out.old.items + 25 }
{
    push(out, &word.stamp.0.to_be_bytes());
    push(out, &word.alarm.to_be_bytes());
    push(out, &word.manual.to_be_bytes());
    push(out, &word.released.to_be_bytes());
    push(out, &word.first.to_be_bytes());
    push(out, &[fault_byte(word)]);
}

fn fault_byte(word: &Word) -> u8
    ensures { result ≡ (if word.now.fault then 1 else 0) }
{
    if word.fault { 1 } else { 0 }
}

fn push(out: &mut ArrayVec<u8, 136>, bytes: &[u8])
    requires { length out.old.items + length bytes.now ≤ 136 }
    ensures text { out.new.items ≡ out.old.items ++ bytes.now }
    ensures room { length out.new.items ≡ length out.old.items + length bytes.now }
{
    let _fits = out.try_extend_from_slice(bytes);
}
