//! A port that is held by a reference.
ghost use Rattle.std.specs.Prelude.{◌≡◌, ◌<◌, ◌+◌, ◌^◌, ℕ, List, Option, Bool, IfSome};
ghost use Rattle.outside.specs.Faults.{Counts};
ghost use Rattle.outside_links.specs.LinkState.{IsUnused};
ghost use Rattle.outside_links.specs.PortAns.{port_failed, links_given, Ends, TakesLink, EndsWhereNoLinkIsLeft};
ghost use Rattle.outside_links.specs.PortAns.{GivesOnly};

use outside_links::{Link, Port, PortAns};

/// What a port is where it is held by value, as under a lock. It keeps its name where it is passed on, so that the one
/// that comes back is known to be the one that was handed in.
pub trait HeldPort: Send + Drop {
    type Conn: Link;

    /// Which port it is.
    ghost name: { Self → ℕ };

    /// How many links it gave.
    ghost given: { Self → ℕ };

    /// How many calls have failed.
    ghost faults: { Self → ℕ };

    /// Whether it has answered End.
    ghost has_ended: { Self → Bool };

    /// The links that are left, where it tells them.
    ghost left: { Self → Option (List Self.Conn) };

    /// Gives the next link, which was not used before.
    fn accept(&mut self) -> PortAns<Self::Conn>
        ensures name { name self.new ≡ name self.old }
        ensures given { given self.new ≡ given self.old + links_given result }
        ensures fits { given self.new < 2 ^ 64 }
        ensures ended { Ends result (has_ended self.old) (has_ended self.new) }
        ensures left { TakesLink result (left self.old) (left self.new) }
        ensures end { IfSome (left self.old) (EndsWhereNoLinkIsLeft result) }
        ensures faults { Counts (port_failed result) (faults self.old) (faults self.new) }
        ensures unused { GivesOnly (λ link. IsUnused (Self.Conn.read_faults link) (Self.Conn.write_faults link)
            (Self.Conn.was_read link) (Self.Conn.was_written link)) result };
}

impl<'p, P: Port> HeldPort for &'p mut P {
    type Conn = P::Conn;

    ghost name = { λ held. held.ghost_name };

    ghost given = { λ held. P.given held.now };

    ghost faults = { λ held. P.faults held.now };

    ghost has_ended = { λ held. P.has_ended held.now };

    ghost left = { λ held. P.left held.now };

    fn accept(&mut self) -> PortAns<P::Conn> {
        (**self).accept()
    }
}
