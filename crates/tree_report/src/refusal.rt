ghost use Rattle.std.specs.Prelude.{◌≡◌, [], ◌∷◌, ◌++◌, IfOk};
ghost use Rattle.std.specs.String.{string_bytes};
ghost use Rattle.tree_report.specs.Refusals as spec;

use crate::limits::{ExceededLimit, Limit};
use app_config::{CONFIGURATION_PATH, ConfigFault, ConfigKind};
use outside::FilePath;
use std::alloc::{AllocError, Global};

/// Why an application's files are not used.
#[derive(Drop)]
pub enum Refusal {
    Limit(ExceededLimit),
    Configuration(ConfigFault),
    /// The path of a file that has a name below its root which spells no constant name.
    BadName(FilePath),
    /// A path that two root lines name.
    TwoRoots(FilePath),
}

fn limit_name(limit: Limit) -> &'static str
    ensures { result.now ≡ spec.limit_name limit }
{
    match limit {
        Limit::Files => "files",
        Limit::Bytes => "bytes",
        Limit::Path => "path",
    }
}

fn fault_name(kind: ConfigKind) -> &'static str
    ensures { result.now ≡ spec.fault_name kind }
{
    match kind {
        ConfigKind::UnknownWord => "unknown word",
        ConfigKind::WordCount => "word count",
        ConfigKind::BadPath => "bad path",
        ConfigKind::BadName => "bad name",
        ConfigKind::NotUtf8 => "not UTF-8",
        ConfigKind::Memory => "out of memory",
    }
}

fn limit_text(alloc: Global, exceeded: ExceededLimit) -> Result<String, AllocError>
    ensures { IfOk result (λ text. string_bytes text ≡ spec.limit_text exceeded) }
{
    let name = limit_name(exceeded.limit);
    let number = exceeded.number;
    let text = format!(in alloc; "limit: {name} {number}")?;
    Ok(text)
}

fn fault_text(alloc: Global, fault: ConfigFault) -> Result<String, AllocError>
    ensures { IfOk result (λ text. string_bytes text ≡ spec.fault_text fault) }
{
    let line = fault.line;
    let name = fault_name(fault.kind);
    let text = format!(in alloc; "{CONFIGURATION_PATH}:{line}: {name}")?;
    Ok(text)
}

fn joined_bytes(alloc: Global, front: &[u8], back: &[u8]) -> Result<Vec<u8>, AllocError>
    ensures { IfOk result (λ bytes. bytes.items ≡ front.now ++ back.now) }
{
    let mut bytes = Vec::from_slice(alloc, front)?;
    bytes.extend_from_slice(back)?;
    Ok(bytes)
}

impl Refusal {
    /// The text that tells it, without an end of line.
    pub fn text(&self, alloc: Global) -> Result<Vec<u8>, AllocError>
        ensures { IfOk result (λ text. text.items ≡ spec.refusal_text self.now) }
    {
        match self {
            Refusal::Limit(exceeded) => Ok(limit_text(alloc, *exceeded)?.into_bytes()),
            Refusal::Configuration(fault) => Ok(fault_text(alloc, *fault)?.into_bytes()),
            Refusal::BadName(path) => joined_bytes(alloc, b"bad name: ", path.as_bytes()),
            Refusal::TwoRoots(path) => joined_bytes(alloc, b"two roots: ", path.as_bytes()),
        }
    }

    /// The line that tells it.
    pub fn line(&self, alloc: Global) -> Result<Vec<u8>, AllocError>
        ensures { IfOk result (λ line. line.items ≡ spec.refusal_text self.now ++ 10 ∷ []) }
    {
        let mut line = self.text(alloc)?;
        line.push(b'\n')?;
        Ok(line)
    }
}
