ghost use Rattle.std.specs.Prelude.{◌≡◌, OnErr, OnOk};
ghost use Rattle.panel_edges.specs.Faults.{HasCause};
ghost use Rattle.panel_edges.specs.Contents.{Grows, GrowsByFront};

use crate::failed::Failed;
use crate::streams::Sink;

/// Writes a whole text, in as many writes as the sink needs.
///
/// # Errors
///
/// At the first write that fails. Some front of the text is written then.
pub fn write_all<K: Sink>(out: &mut K, text: &[u8]) -> Result<(), Failed>
    ensures ok { OnOk result (Grows (K.written out.old) (K.written out.new) text.now) }
    ensures err { OnErr result (GrowsByFront (K.written out.old) (K.written out.new) text.now) }
    ensures cause { HasCause (K.write_faults out.old) (K.write_faults out.new) result }
    ensures left { K.left out.new ≡ K.left out.old }
    ensures reads { K.read_faults out.new ≡ K.read_faults out.old }
{
    let mut rest = text;
    while !rest.is_empty() {
        let count = out.write(rest)?;
        rest = rest.split_at(count).1;
    }
    Ok(())
}
