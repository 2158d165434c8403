ghost use Rattle.std.specs.Prelude.{◌≡◌, ◌<◌};
ghost use Rattle.answer_lanes.specs.Known.{place_in};

/// One of the 32 places of a block, counted from 0.
pub(crate) fn place_of(firsts: &[u16; 4], k: usize) -> usize
    requires { k < 32 }
    ensures { result ≡ place_in firsts.now k }
{
    firsts[k / 8] as usize + k % 8
}
