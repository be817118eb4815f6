//! Why an event is refused, and what a seat is for.

/// The names of the guards. An event is refused by the first guard of its row that is true.
#[derive(Clone, Copy, Debug, PartialEq, Eq)]
pub enum Guard {
    /// The seat seeks, or waits after a release.
    Pending,
    /// The seat has a share, an open yield, or is exclusive.
    Sharing,
    BusyShare,
    NoShare,
    /// The seat is exclusive; of a Begin, any seat is.
    Exclusive,
    /// The seat runs a request.
    Running,
    NotYielded,
    /// Another seat is exclusive; of a Resume, any seat is.
    OtherExclusive,
    NotRunning,
    InTable,
    /// The seat need not seek: it may take at once.
    NotBusy,
    /// The seat is in the midst of something else than seeking this.
    WrongWant,
    BusyExclusive,
    NotExclusive,
    NotReleasing,
    /// Some waiting seat still goes first.
    StillEligible,
    NotLoading,
    NotUnloading,
    SameStamps,
    /// It carries 4,096.
    GenerationsFull(u32),
    /// It carries the kept changed bytes that there would be.
    KeptFull(u64),
    /// It carries 100,000.
    RequestsFull(u32),
    /// It carries the kept reply bytes that there are.
    RepliesFull(u64),
}

/// What a seat is exclusive for.
#[derive(Clone, Copy, Debug, PartialEq, Eq)]
pub enum Purpose {
    Load,
    Unload,
}

/// The places in the history of a seat's running Begin and of the entry that opened its section.
#[derive(Clone, Copy, Debug, PartialEq, Eq)]
pub struct Marks {
    pub running: Option<u64>,
    pub section: Option<u64>,
}
