ghost use Rattle.std.specs.Prelude.{◌≡◌, ◌<◌, ◌+◌, ◌^◌, ℕ, List, Option, Bool, IfSome};
ghost use Rattle.outside.specs.Faults.{Counts};
ghost use Rattle.outside_links.specs.LinkState.{IsUnused};
ghost use Rattle.outside_links.specs.PortAns.{port_failed, links_given, Ends, TakesLink, EndsWhereNoLinkIsLeft};
ghost use Rattle.outside_links.specs.PortAns.{GivesOnly};

use crate::links::Link;

/// What a port answers.
#[derive(Drop)]
pub enum PortAns<L> {
    Link(L),
    End,
    Failed,
}

/// Where links come from.
pub trait Port: Send {
    type Conn: Link;

    /// How many links it gave.
    ghost given: { Self → ℕ };

    /// How many calls have failed.
    ghost faults: { Self → ℕ };

    /// Whether it has answered End.
    ghost has_ended: { Self → Bool };

    /// The links that are left, where it tells them.
    ghost left: { Self → Option (List Self.Conn) };

    /// Gives the next link, which was not used before.
    fn accept(&mut self) -> PortAns<Self::Conn>
        ensures given { given self.new ≡ given self.old + links_given result }
        ensures fits { given self.new < 2 ^ 64 }
        ensures ended { Ends result (has_ended self.old) (has_ended self.new) }
        ensures left { TakesLink result (left self.old) (left self.new) }
        ensures end { IfSome (left self.old) (EndsWhereNoLinkIsLeft result) }
        ensures faults { Counts (port_failed result) (faults self.old) (faults self.new) }
        ensures unused { GivesOnly (λ link. IsUnused (Self.Conn.read_faults link) (Self.Conn.write_faults link)
            (Self.Conn.was_read link) (Self.Conn.was_written link)) result };
}
