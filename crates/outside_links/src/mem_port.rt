ghost use Rattle.std.specs.Prelude.{◌≡◌, ◌↔◌, ◌<◌, ◌+◌, ◌^◌, Some, false, All, IsTrue};
ghost use Rattle.outside.specs.Faults.{Counts};
ghost use Rattle.outside.specs.CallState.{uncalled};
ghost use Rattle.outside.specs.Calls.{counted, IsDue};
ghost use Rattle.outside_links.specs.LinkState.{IsUnused};
ghost use Rattle.outside_links.specs.PortAns.{port_failed, links_given, Ends, TakesLink, EndsWhereNoLinkIsLeft};
ghost use Rattle.outside_links.specs.PortAns.{GivesOnly};

use crate::links::Link;
use crate::ports::{Port, PortAns};
use outside::{CallNumbers, Calls};
use std::marker::Model;

/// A port in memory, which gives its links in order and fails at the calls with the given numbers.
#[derive(Drop)]
pub struct MemPort<L: Link> {
    /// The links that are left, the next one last.
    links: Vec<L>,
    given: u64,
    ended: bool,
    calls: Calls,
}

impl<L: Link> Model for MemPort<L> {
    ghost use Rattle.outside_links.specs.PortState.{PortState};

    ghost Value = { PortState L };

    ghost use Rattle.std.specs.Prelude.{◌<◌, ◌+◌, ◌^◌, All, length, reverse};
    ghost use Rattle.outside_links.specs.LinkState.{IsUnused};

    ghost view = { λ p. record {
      left = reverse p.links.items;
      given = p.given;
      ended = p.ended;
      calls = p.calls;
    } };

    ghost invariant = { λ p. (p.given + length p.links.items < 2 ^ 64)
        × All (λ link. IsUnused (L.read_faults link) (L.write_faults link) (L.was_read link) (L.was_written link))
        p.links.items };
}

impl<L: Link> MemPort<L> {
    /// A port that gives these links in their order. The calls with these numbers, counted from 1, are to fail.
    pub fn new(links: Vec<L>, fails: CallNumbers) -> MemPort<L>
        requires { All (λ link. IsUnused (L.read_faults link) (L.write_faults link) (L.was_read link)
            (L.was_written link)) links.items }
        ensures { result ≡ record { left = links.items; given = 0; ended = false; calls = uncalled fails } }
    {
        let mut links = links;
        links.reverse();
        MemPort {
            links,
            given: 0,
            ended: false,
            calls: Calls::new(fails),
        }
    }
}

impl<L: Link> Port for MemPort<L> {
    type Conn = L;

    ghost given = { λ p. p.given };

    ghost faults = { λ p. p.calls.faults };

    ghost has_ended = { λ p. p.ended };

    ghost left = { λ p. Some p.left };

    fn accept(&mut self) -> PortAns<L>
        ensures given { self.new.given ≡ self.old.given + links_given result }
        ensures fits { self.new.given < 2 ^ 64 }
        ensures ended { Ends result self.old.ended self.new.ended }
        ensures left { TakesLink result (Some self.old.left) (Some self.new.left) }
        ensures end { EndsWhereNoLinkIsLeft result self.old.left }
        ensures faults { Counts (port_failed result) self.old.calls.faults self.new.calls.faults }
        ensures unused { GivesOnly (λ link. IsUnused (L.read_faults link) (L.write_faults link) (L.was_read link)
            (L.was_written link)) result }

        // It fails at the calls that it was told to fail at alone.
        ensures fails { IsTrue (port_failed result) ↔ IsDue self.old.calls }
        ensures calls { self.new.calls ≡ counted (port_failed result) self.old.calls }
    {
        if self.calls.is_due() {
            self.calls.count_failed();
            return PortAns::Failed;
        }
        self.calls.count_passed();
        match self.links.pop() {
            Some(link) => {
                self.given += 1;
                PortAns::Link(link)
            }
            None => {
                self.ended = true;
                PortAns::End
            }
        }
    }
}
