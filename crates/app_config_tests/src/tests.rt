use crate::shown::shown;
use app_config::{Config, ConfigFault, ConfigKind, read};
use std::alloc::Global;
use std::process::Abort;
use std::test::Fail;

fn config_of(rt: &impl Abort, alloc: Global, text: &[u8]) -> Result<Config, ConfigFault> {
    assert!(rt; text.len() < 1_000_000);
    read(alloc, text)
}

/// A text, and the configuration that it spells.
type Row = (&'static [u8], &'static [u8]);

fn each_is_read(rt: &impl Abort, alloc: Global, rows: &[Row]) -> Result<(), Fail> {
    for (text, wanted) in rows {
        let config = config_of(rt, alloc, text)?;
        assert_eq!(rt; shown(alloc, &config)?.as_slice(), *wanted, "{text:?}");
    }
    Ok(())
}

static FIELDS: [Row; 3] = [
    (
        b"root app/api Api::V1\ncollapse app/models/booking/actions\nignore app/models/*_old.rb\n\
        inflect html_parser HTMLParser\non_load Hotel ready\nskip_eager app/lib/*.rb\nroot lib/x\n",
        b"root app/api (Api::V1)\nroot lib/x ()\ncollapse app/models/booking/actions\n\
        ignore app/models/*_old.rb\nskip_eager app/lib/*.rb\ninflect html_parser HTMLParser\n\
        on_load Hotel [ready]\n",
    ),
    (
        b"inflect api API\ninflect html HTML\ninflect api Api",
        b"inflect api API\ninflect html HTML\ninflect api Api\n",
    ),
    (b"", b""),
];

#[test]
fn each_kind_of_line_fills_its_field(rt: HostRuntime) -> Result<(), Fail> {
    each_is_read(&rt, rt.alloc(), &FIELDS)
}

static ENDS: [Row; 2] = [
    (
        b"root app/a\r\n\r\n#\xff\r\n  root   lib/b  Admin  \r\non_load A x\r",
        b"root app/a ()\nroot lib/b (Admin)\non_load A [x]\n",
    ),
    (
        b"on_load Post::Draft   post  is ready  \n",
        b"on_load Post::Draft [post  is ready  ]\n",
    ),
];

#[test]
fn lines_end_with_or_without_returns_and_texts_keep_their_last_spaces(
    rt: HostRuntime,
) -> Result<(), Fail> {
    each_is_read(&rt, rt.alloc(), &ENDS)
}

/// A text, and its first fault.
type Fault = (&'static [u8], u32, ConfigKind);

fn each_is_faulty(rt: &impl Abort, alloc: Global, rows: &[(&[u8], u32, ConfigKind)]) {
    for (text, line, kind) in rows {
        match config_of(rt, alloc, text) {
            Ok(_) => assert!(rt; false, "no fault in {text:?}"),
            Err(fault) => assert_eq!(rt; (fault.line, fault.kind), (*line, *kind), "{text:?}"),
        }
    }
}

static TOGETHER: [Fault; 5] = [
    (b"inflect \xc3 A", 1, ConfigKind::NotUtf8),
    (b"bogus \xff", 1, ConfigKind::NotUtf8),
    (b"root app/x A \xff", 1, ConfigKind::NotUtf8),
    (b"root \xff", 1, ConfigKind::NotUtf8),
    (b"inflect a \xff", 1, ConfigKind::NotUtf8),
];

#[test]
fn bytes_that_are_no_text_are_judged_first(rt: HostRuntime) {
    each_is_faulty(&rt, rt.alloc(), &TOGETHER);
}

/// Each base has this constant, or none.
fn each_inflection(rt: &impl Abort, config: &Config, rows: &[(&[u8], Option<&[u8]>)]) {
    for (base, wanted) in rows {
        let found = config.inflection(base).map(|constant| constant.as_bytes());
        assert_eq!(rt; found, *wanted, "{base:?}");
    }
}

#[test]
fn the_last_inflection_of_a_base_wins(rt: HostRuntime) -> Result<(), Fail> {
    let text = b"inflect api API\ninflect html HTML\ninflect api Api";
    let config = config_of(&rt, rt.alloc(), text)?;
    let rows = [
        (b"api".as_slice(), Some(b"Api".as_slice())),
        (b"html", Some(b"HTML")),
        (b"ap", None),
    ];
    each_inflection(&rt, &config, &rows);
    Ok(())
}

#[test]
fn an_empty_configuration_has_no_entry(rt: HostRuntime) -> Result<(), Fail> {
    let config = Config::new(rt.alloc());
    assert_eq!(rt; shown(rt.alloc(), &config)?.len(), 0);
    assert!(rt; config.inflection(b"").is_none());
    Ok(())
}

#[test]
fn ten_thousand_lines_are_read_at_once(rt: HostRuntime) -> Result<(), Fail> {
    let mut text = Vec::new(rt.alloc());
    for _ in 0..10_000u32 {
        text.extend_from_slice(b"inflect some_base SomeConstant\n")?;
    }
    let config = config_of(&rt, rt.alloc(), &text)?;
    assert_eq!(rt; config.inflect.len(), 10_000);
    text.extend_from_slice(b"bogus")?;
    each_is_faulty(
        &rt,
        rt.alloc(),
        &[(text.as_slice(), 10_001, ConfigKind::UnknownWord)],
    );
    Ok(())
}
