//! Ending a command that lacks a file.

ghost use Rattle.std.specs.Prelude.{◌≡◌, ◌≢◌};
ghost use Rattle.named_files.specs.Missing.{file_line, file_status, file_text};
ghost use Rattle.named_files.specs.declared.file_stop.FileStop.TheVariants.{ReadFault};
ghost use Rattle.program_status.specs.Statuses.{BlamesWrites, IsSilentWithoutMemory, number_of};
ghost use Rattle.site_commands.specs.Commands.{Tells};

use crate::file_stop::FileStop;
use panel_edges::{Failed, Sink};
use program_status::{Outcome, Status, say};
use site_commands::write_named;

/// Ends a command with why the file of a name isn't at hand. Where memory ran out nothing is written.
pub fn tell_no_file<K: Sink>(name: &str, stop: FileStop, out: &mut K) -> Outcome
    ensures tells { Tells (file_status stop) (file_text name.now stop) (K.written out.old)
        (K.written out.new) result }
    ensures read { result.status ≡ number_of Status.ReadFault → stop ≡ ReadFault }
    ensures write { BlamesWrites result (K.write_faults out.old) (K.write_faults out.new) }
    ensures memory { IsSilentWithoutMemory result (K.written out.old) (K.written out.new) }
    ensures disk { result.status ≢ number_of Status.DiskFault }
    ensures keeper { result.status ≢ number_of Status.KeeperFault }
{
    match stop {
        FileStop::NoFile => tell_absent(name, out),
        FileStop::ReadFault => say(b"fault read\n", Status::ReadFault, 0, out),
        FileStop::NoMemory => Outcome::after(Status::NoMemory, 0),
    }
}

// Ends a command with the word of a file that is absent or too long.
fn tell_absent<K: Sink>(name: &str, out: &mut K) -> Outcome
    ensures tells { Tells Status.BadFile (file_line name.now) (K.written out.old)
        (K.written out.new) result }
    ensures write { BlamesWrites result (K.write_faults out.old) (K.write_faults out.new) }
{
    match write_named("refused file ", name, "\n", out) {
        Ok(()) => Outcome::after(Status::BadFile, 0),
        Err(Failed) => Outcome::after(Status::WriteFault, 0),
    }
}
