ghost use Rattle.std.specs.Prelude.{◌≡◌, List, ℕ, Bool, true, false, Option, IfOk, OnErr, is_ok};
ghost use Rattle.panel_edges.specs.Faults.{HasCause};
ghost use Rattle.desk_doors.specs.Doors.{ToldConn, Gives, HandsBack, StillTells, conn_told};

use panel_edges::{Failed, Sink, Source};

/// A door through which connections come, one at a time.
pub trait Door {
    type Conn: Source + Sink + Drop;

    /// The connections that wait, in the order in which they are given, where they are told.
    ghost waiting: { Self → Option (List ToldConn) };

    /// The connections that were handed back, in that order, where they are told.
    ghost handed: { Self → Option (List ToldConn) };

    /// Whether the connection that was given last is not handed back yet.
    ghost is_out: { Self → Bool };

    /// How often the door has failed.
    ghost faults: { Self → ℕ };

    /// Opens the door at a port. It comes before any [`Door::next`].
    fn start(&mut self, port: u16) -> Result<(), Failed>
        ensures waiting { Self.waiting self.new ≡ Self.waiting self.old }
        ensures handed { Self.handed self.new ≡ Self.handed self.old }
        ensures out { Self.is_out self.new ≡ Self.is_out self.old }
        ensures cause { HasCause (Self.faults self.old) (Self.faults self.new) result };

    /// Gives the next connection.
    fn next(&mut self) -> Result<Self::Conn, Failed>
        requires { Self.is_out self.old ≡ false }
        ensures given { IfOk result (λ conn. Gives (Self.waiting self.old) (Self.waiting self.new)
            (conn_told (Self.Conn.left conn) (Self.Conn.written conn))) }
        ensures err { OnErr result (Self.waiting self.new ≡ Self.waiting self.old) }
        ensures handed { StillTells (Self.handed self.old) (Self.handed self.new) }
        ensures out { Self.is_out self.new ≡ is_ok result }
        ensures cause { HasCause (Self.faults self.old) (Self.faults self.new) result };

    /// Takes back the connection that was given last.
    fn finish(&mut self, conn: Self::Conn)
        requires { Self.is_out self.old ≡ true }
        ensures handed { HandsBack (Self.handed self.old) (Self.handed self.new)
            (conn_told (Self.Conn.left conn) (Self.Conn.written conn)) }
        ensures waiting { Self.waiting self.new ≡ Self.waiting self.old }
        ensures out { Self.is_out self.new ≡ false }
        ensures same { Self.faults self.new ≡ Self.faults self.old };
}
