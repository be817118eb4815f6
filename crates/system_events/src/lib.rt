//! Events of a system, and what histories of them are legal and right, with nothing of a language in it.
//!
//! A system is one history: entries that seats made, one after another. From it follows everything else, so the state
//! after a history is a function of it (`after` in `specs/Legal.antt`). An event enters where no guard of its row is
//! true,
//! and its caller keeps the row's condition. Guards are tried in order.
//!
//! | Act | Refused where, in this order | Its caller's condition | What it does |
//! |---|---|---|---|
//! | Share | Pending, Sharing, BusyShare | | takes a share |
//! | Unshare | NoShare, Exclusive, Running | | gives it back |
//! | Yield | NoShare, Exclusive, NotRunning | | lets loads go first |
//! | Retake | NotYielded, OtherExclusive | | takes the share back |
//! | Seek | NoShare, Exclusive, Running or NotRunning, InTable, NotBusy | the task is one of the program's | seeks to
//! be exclusive |
//! | Take | WrongWant, or the guards of Seek but NotBusy; BusyExclusive | the task is one of the program's | is
//! exclusive |
//! | Release | NotExclusive | | is it no more |
//! | Resume | NotReleasing, OtherExclusive, StillEligible | | waits no more |
//! | Define | NotLoading, InTable | the value is known, and the sought task needs the task | the table gains it |
//! | Reload | NotUnloading, SameStamps, GenerationsFull, KeptFull | the program has no fault | the next generation;
//! the table is empty |
//! | Begin | NoShare, Running, Exclusive, RequestsFull, RepliesFull | the request is one that may begin | runs it |
//! | End | NotRunning, NoShare, Exclusive | the reply is the request's; what it asked for is in the table | runs
//! nothing |
//! | Refuse | Running; for Memory those of End; else RequestsFull, RepliesFull | a fault holds no want of memory |
//! runs nothing |
//!
//! A history is legal where each entry is a step from the state before it, and right where each End carries the reply
//! of
//! its seat's request on the program of the last Reload before the request began. That every legal history is right is
//! the law that `system_laws` proves.
#![tactic(auto)]

mod event;
mod matter;

pub use event::{Act, Applied, Cause, Counts, Entry, Event, Kept, Want};
pub use matter::Matter;
