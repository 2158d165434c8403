ghost use Rattle.std.specs.Prelude.{◌≡◌, ◌↔◌, IsTrue};
ghost use Rattle.panel_edges.specs.Faults.{IsListed, counted};

/// Counts a call of a form in memory, and tells whether it is to fail: whether its number, from 1, is listed.
pub fn count_call(calls: &mut u64, fails: &[u64]) -> bool
    ensures calls { calls.new ≡ counted calls.old }
    ensures listed { IsTrue result ↔ IsListed fails.now calls.old }
{
    *calls = calls.saturating_add(1);
    fails.contains(calls)
}
