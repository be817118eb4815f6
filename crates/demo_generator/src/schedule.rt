//! The turns of a made schedule.
ghost use Rattle.std.specs.Prelude.{◌≡◌, ◌<◌, ◌≤◌, length};
ghost use Rattle.demo_generator.specs.Schedule as spec;

use std::marker::Model;

/// What a turn does. Seats are counted from 0.
#[derive(Clone, Copy, Debug, PartialEq, Eq)]
pub enum Turn {
    /// The seat has a request and makes a step.
    Step(u32),
    /// The seat gets a request for the action of this module. Where a value is given, the first module's file is
    /// written with it before.
    Request(u32, u32, Option<u32>),
    /// The seat has no request, and none is left.
    Idle(u32),
}

/// A made schedule: chance, and the requests that are left.
#[derive(Drop)]
pub struct Schedule {
    modules: u32,
    chance: u64,
    given: u32,
}

impl Model for Schedule {
    ghost use Rattle.std.specs.Prelude.{◌≤◌, ◌<◌};
    ghost use Rattle.demo_generator.specs.Schedule.{Drawing};

    ghost Value = { Drawing };

    ghost view = { λ s. record { modules = s.modules; chance = s.chance; given = s.given } };

    ghost invariant = { λ s. (0 < s.modules) × (s.modules ≤ 1000) × (s.given ≤ 4000) };
}

// The next number of chance.
fn after_draw(chance: u64) -> u64
    ensures { result ≡ spec.after_draw chance }
{
    chance
        .wrapping_mul(6_364_136_223_846_793_005)
        .wrapping_add(1_442_695_040_888_963_407)
}

// What is drawn with a number of chance, below a limit.
fn drawn(chance: u64, below: u32) -> u32
    requires { 0 < below }
    ensures drawn { result ≡ spec.drawn chance below }
    ensures less { result < below }
{
    ((chance >> 33) % u64::from(below)) as u32
}

impl Schedule {
    /// The schedule of so many modules.
    pub fn new(modules: u32) -> Schedule
        requires { (1 ≤ modules) × (modules ≤ 1000) }
        ensures { result ≡ spec.first modules }
    {
        Schedule {
            modules,
            chance: u64::from(modules),
            given: 0,
        }
    }

    /// What the next turn does, where these seats have requests.
    pub fn turn(&mut self, running: &[bool]) -> Turn
        requires { length running.now ≡ 4 }
        ensures turn { result ≡ (spec.turn self.old running.now).0 }
        ensures rest { self.new ≡ (spec.turn self.old running.now).1 }
    {
        self.chance = after_draw(self.chance);
        let seat = drawn(self.chance, 4);
        if running[seat as usize] {
            return Turn::Step(seat);
        }
        if self.given >= 4 * self.modules {
            return Turn::Idle(seat);
        }
        self.given += 1;
        self.request(seat)
    }

    // The request that was given last, with the edit before each tenth.
    fn request(&mut self, seat: u32) -> Turn
        ensures turn { result ≡ (spec.request seat self.old).0 }
        ensures rest { self.new ≡ (spec.request seat self.old).1 }
    {
        let mut value = None;
        if self.given % 10 == 0 {
            self.chance = after_draw(self.chance);
            value = Some(drawn(self.chance, 100));
        }
        self.chance = after_draw(self.chance);
        Turn::Request(seat, drawn(self.chance, self.modules), value)
    }
}
