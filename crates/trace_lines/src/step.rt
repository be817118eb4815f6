//! What a step of a seat comes to.

/// What a step of a seat comes to. Tasks are told by their names, and bodies as they are.
#[derive(Clone, Copy, Debug, PartialEq, Eq)]
pub enum Step<'a> {
    /// The seat has no request.
    Idle,
    /// A guard refuses the step.
    Waits,
    Share,
    CheckSame,
    CheckDiffers,
    SeekUnload,
    TakeUnload,
    /// The number of the new generation.
    Reload(u32),
    ReloadNone,
    Release,
    ReleaseWaits,
    Resume,
    Begin,
    LookFound(&'a [u8]),
    LookMissing(&'a [u8]),
    SeekLoad(&'a [u8]),
    TakeLoad(&'a [u8]),
    Define(&'a [u8]),
    /// The status, the number of the generation, and the body.
    End(u32, u32, &'a [u8]),
    /// The status and the body.
    Refuse(u32, &'a [u8]),
    Unshare,
}
