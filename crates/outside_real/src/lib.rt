//! The real outside: the application's folder, standard input and output, and connections over TCP. Each is a few lines
//! over std that tells nothing of contents, counts its faults, and is trusted to read and write what it says.
#![tactic(auto)]

pub mod fault;
pub mod folder;
pub mod input;
mod listing;
mod ordered;
pub mod output;
mod reading;
pub mod sockets;
#[cfg(test)]
mod tests;

pub use fault::FolderFault;
pub use folder::FolderTree;
pub use input::StdinSource;
pub use output::StdoutSink;
pub use sockets::{TcpLink, TcpPort};
