//! Events, and what the history keeps of them.

use crate::matter::Matter;
use system_seats::Guard;

/// What a seat is, or seeks to be, exclusive for.
#[derive(Drop)]
pub enum Want<M: Matter> {
    Load(M::Task),
    Unload,
}

/// Why a request is refused.
#[derive(Drop)]
pub enum Cause<M: Matter> {
    /// The files could not be read.
    Tree,
    /// The files exceed a limit, or have a fault of configuration or of names.
    Program(M::Fault),
    GenerationsFull(u32),
    KeptFull(u64),
    /// The request's method is none that is served.
    Method,
    /// The request has a body.
    Body,
    /// The request's target has so many bytes, too many.
    Target(u32),
    /// No memory was left for a request that runs.
    Memory,
}

/// What a seat does.
#[derive(Drop)]
pub enum Act<M: Matter> {
    Share,
    Unshare,
    Yield,
    Retake,
    Seek(Want<M>),
    Take(Want<M>),
    Release,
    Resume,
    Define(M::Task, M::Value),
    Reload(M::Program),
    Begin(M::Request),
    End(M::Reply),
    Refuse(Cause<M>),
}

/// An act of a seat.
#[derive(Drop)]
pub struct Event<M: Matter> {
    pub seat: u32,
    pub act: Act<M>,
}

/// What the history keeps of an act: all of it but a defined value, which the table keeps.
#[derive(Drop)]
pub enum Kept<M: Matter> {
    Share,
    Unshare,
    Yield,
    Retake,
    Seek(Want<M>),
    Take(Want<M>),
    Release,
    Resume,
    Define(M::Task),
    Reload(M::Program),
    Begin(M::Request),
    End(M::Reply),
    Refuse(Cause<M>),
}

/// An event as the history keeps it.
#[derive(Drop)]
pub struct Entry<M: Matter> {
    pub seat: u32,
    pub kept: Kept<M>,
}

/// What `apply` answers.
#[derive(Drop)]
pub enum Applied<M: Matter> {
    Done,
    /// By this guard, the first of the event's row that is true. Nothing changed, and here is the event.
    Refused(Guard, Event<M>),
}

/// What a system counts.
#[derive(Drop)]
pub struct Counts<M: Matter> {
    /// The number of the generation in force. The empty snapshot is 0.
    pub generation: u32,
    /// The program in force.
    pub program: M::Program,
    /// How many requests were begun, or refused for another cause than Memory.
    pub requests: u32,
    /// The bytes of the bodies of all replies, or the greatest number of 64 bits.
    pub reply_bytes: u64,
    /// The sum, over reloads, of the bytes of files that were new or differed, or the greatest number of 64 bits.
    pub changed_bytes: u64,
}
