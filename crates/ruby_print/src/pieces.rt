ghost use Rattle.std.specs.Prelude.{◌≡◌, ◌++◌, ◌∷◌, [], map, OnOk, if◌then◌else◌};
ghost use Rattle.std.specs.List.{flat_map};
ghost use Rattle.ruby_types.specs.Paths as paths;
ghost use Rattle.ruby_print.specs.Pieces as spec;
ghost use Rattle.ruby_print.specs.Definitions as definitions;

use plain_text::path_text;
use ruby_types::{CPath, ConstRef, Text};
use std::alloc::{AllocError, Global};

/// The bytes of a plain part of a text, each as it stands in double quotes.
pub fn push_escapes(written: &mut Vec<u8>, bytes: &[u8]) -> Result<(), AllocError>
    ensures { OnOk result (written.new.items ≡ written.old.items ++ flat_map spec.escaped bytes.now) }
{
    'bytes: for byte in bytes {
        push_escaped(written, *byte)?;
    }
    Ok(())
}

fn push_escaped(written: &mut Vec<u8>, byte: u8) -> Result<(), AllocError>
    ensures { OnOk result (written.new.items ≡ written.old.items ++ spec.escaped byte) }
{
    match byte {
        b'"' => written.extend_from_slice(b"\\\""),
        b'\\' => written.extend_from_slice(b"\\\\"),
        b'#' => written.extend_from_slice(b"\\#"),
        b'\n' => written.extend_from_slice(b"\\n"),
        b'\t' => written.extend_from_slice(b"\\t"),
        b'\r' => written.extend_from_slice(b"\\r"),
        b'\x1b' => written.extend_from_slice(b"\\e"),
        _ => written.extend_from_slice(&[byte]),
    }
}

/// A constant as it is written.
pub fn push_constant(
    alloc: Global,
    written: &mut Vec<u8>,
    constant: &ConstRef,
) -> Result<(), AllocError>
    ensures { OnOk result (written.new.items ≡ written.old.items ++ spec.constant_text constant.now) }
{
    if constant.top {
        written.extend_from_slice(b"::")?;
    }
    push_path(alloc, written, &constant.path)
}

/// A constant path, its names with `::` between them.
pub fn push_path(alloc: Global, written: &mut Vec<u8>, path: &CPath) -> Result<(), AllocError>
    ensures { OnOk result (written.new.items ≡ written.old.items ++ paths.path_text path.now) }
{
    let text = path_text(alloc, path)?;
    written.extend_from_slice(text.as_bytes())
}

/// What stands before a member of a list: nothing before the first, else a comma.
pub fn push_comma(written: &mut Vec<u8>, first: bool) -> Result<(), AllocError>
    ensures { OnOk result (written.new.items
        ≡ (if first then written.old.items else written.old.items ++ 44 ∷ 32 ∷ [])) }
{
    if !first {
        written.extend_from_slice(b", ")?;
    }
    Ok(())
}

/// Names with commas between them.
pub fn push_names(written: &mut Vec<u8>, names: &[Text]) -> Result<(), AllocError>
    ensures { OnOk result (written.new.items ≡ written.old.items ++ spec.joined names.now) }
{
    let mut first = true;
    'names: for name in names {
        push_comma(written, first)?;
        written.extend_from_slice(name.as_bytes())?;
        first = false;
    }
    Ok(())
}

/// Names as symbols, with commas between them.
pub fn push_symbols(written: &mut Vec<u8>, names: &[Text]) -> Result<(), AllocError>
    ensures { OnOk result (written.new.items ≡ written.old.items ++ spec.joined (map definitions.symbol names.now)) }
{
    let mut first = true;
    'names: for name in names {
        push_comma(written, first)?;
        push_symbol(written, name)?;
        first = false;
    }
    Ok(())
}

/// `:name`
pub fn push_symbol(written: &mut Vec<u8>, name: &Text) -> Result<(), AllocError>
    ensures { OnOk result (written.new.items ≡ written.old.items ++ definitions.symbol name.now) }
{
    written.push(b':')?;
    written.extend_from_slice(name.as_bytes())
}

/// `@name`
pub fn push_ivar(written: &mut Vec<u8>, name: &Text) -> Result<(), AllocError>
    ensures { OnOk result (written.new.items ≡ written.old.items ++ (64 ∷ name.now)) }
{
    written.push(b'@')?;
    written.extend_from_slice(name.as_bytes())
}
