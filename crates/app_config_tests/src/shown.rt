//! Configurations as texts: a line for each entry, field by field. The names of a namespace stand in parentheses, a
//! text in brackets.

use app_config::{Config, ConfigTexts, LoadLine, Patterns, RootLine, TextPairs};
use std::alloc::{AllocError, Global};

fn put_each(text: &mut Vec<u8>, parts: &[&[u8]]) -> Result<(), AllocError> {
    for part in parts {
        text.extend_from_slice(part)?;
    }
    Ok(())
}

fn put_path(text: &mut Vec<u8>, path: &ConfigTexts) -> Result<(), AllocError> {
    let mut between = b"".as_slice();
    for name in path.as_slice() {
        put_each(text, &[between, name.as_bytes()])?;
        between = b"::";
    }
    Ok(())
}

fn put_roots(text: &mut Vec<u8>, roots: &[RootLine]) -> Result<(), AllocError> {
    for root in roots {
        put_each(text, &[b"root ", root.path.as_bytes(), b" ("])?;
        put_path(text, &root.namespace)?;
        put_each(text, &[b")\n"])?;
    }
    Ok(())
}

fn put_patterns(text: &mut Vec<u8>, word: &[u8], patterns: &Patterns) -> Result<(), AllocError> {
    for pattern in patterns.as_slice() {
        put_each(text, &[word, b" ", pattern.as_bytes(), b"\n"])?;
    }
    Ok(())
}

fn put_inflections(text: &mut Vec<u8>, pairs: &TextPairs) -> Result<(), AllocError> {
    for (base, constant) in pairs.as_slice() {
        put_each(
            text,
            &[
                b"inflect ",
                base.as_bytes(),
                b" ",
                constant.as_bytes(),
                b"\n",
            ],
        )?;
    }
    Ok(())
}

fn put_loads(text: &mut Vec<u8>, loads: &[LoadLine]) -> Result<(), AllocError> {
    for load in loads {
        put_each(text, &[b"on_load "])?;
        put_path(text, &load.constant)?;
        put_each(text, &[b" [", load.text.as_bytes(), b"]\n"])?;
    }
    Ok(())
}

/// The text of a configuration.
pub fn shown(alloc: Global, config: &Config) -> Result<Vec<u8>, AllocError> {
    let mut text = Vec::new(alloc);
    put_roots(&mut text, config.roots.as_slice())?;
    put_patterns(&mut text, b"collapse", &config.collapse)?;
    put_patterns(&mut text, b"ignore", &config.ignore)?;
    put_patterns(&mut text, b"skip_eager", &config.skip_eager)?;
    put_inflections(&mut text, &config.inflect)?;
    put_loads(&mut text, config.on_load.as_slice())?;
    Ok(text)
}
