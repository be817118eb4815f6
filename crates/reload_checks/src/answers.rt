//! What a check answers.

/// What a check that wasn't refused came to.
#[derive(Clone, Copy, Debug, PartialEq, Eq)]
pub enum Checked {
    /// The stamps that were read last are those in force.
    Same,
    /// The check put this generation into force.
    Reloaded(u32),
}

/// Why a check is refused. `F` is why files give no program.
#[derive(Drop)]
pub enum ReloadFault<F> {
    /// The files could not be read.
    Tree,
    /// The files exceed a limit, or have a fault of configuration or of names.
    Program(F),
    /// There are 4,096 generations, which it carries.
    GenerationsFull(u32),
    /// With these files there would be so many kept changed bytes, over 512 MiB.
    KeptFull(u64),
    Memory,
}
