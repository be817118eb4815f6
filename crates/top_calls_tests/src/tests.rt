//! What no file of cases can say: trees and sinks that fail, and files whose chains are long.
use crate::run::{Run, run_on};
use lists::{Listed, Text};
use outside::MemTree;
use ruby_types::TextList;
use std::alloc::{AllocError, Global};
use std::test::Fail;
use std::thread;

fn words_of(alloc: Global, words: &[&str]) -> Result<TextList, AllocError> {
    let mut list = TextList::new(alloc);
    for word in words {
        list.push(Text::from_bytes(alloc, word.as_bytes())?)?;
    }
    Ok(list)
}

/// Runs the words over one file, with a tree and a sink that fail at the given calls.
fn run_with(
    alloc: Global,
    words: &[&str],
    tree_fails: &[u64],
    sink_fails: &[u64],
) -> Result<Run, AllocError> {
    let mut tree = MemTree::new(alloc, Listed::from_slice(alloc, tree_fails)?);
    tree.write("app/lib/a.rb", b"")?;
    run_on(alloc, &words_of(alloc, words)?, &mut tree, sink_fails)
}

#[test]
fn faults_of_the_tree_and_of_the_sink_have_their_statuses(rt: HostRuntime) -> Result<(), Fail> {
    for words in [["tree"].as_slice(), &["get", "/hello/index"]] {
        let unread = run_with(rt.alloc(), words, &[1], &[])?;
        assert_eq!(rt; unread.status, 3);
        assert!(rt; unread.written.is_empty());
        let unwritten = run_with(rt.alloc(), words, &[], &[1])?;
        assert_eq!(rt; unwritten.status, 4);
        assert!(rt; unwritten.written.is_empty());
    }
    Ok(())
}

/// Asks for a controller whose file has a constant with this text a number of times: the exit status.
fn status_of_chain(alloc: Global, link: &str, count: u32) -> Result<u8, AllocError> {
    let mut text = Vec::from_slice(alloc, b"class HelloController\n  X = ")?;
    for _ in 0..count {
        text.extend_from_slice(link.as_bytes())?;
    }
    text.extend_from_slice(b"1\nend\n")?;
    let mut tree = MemTree::new(alloc, Listed::new(alloc));
    tree.write("app/controllers/hello_controller.rb", text.as_slice())?;
    let words = words_of(alloc, &["get", "/hello/index"])?;
    Ok(run_on(alloc, &words, &mut tree, &[])?.status)
}

#[test]
fn chains_of_a_million_links_are_read_and_dropped_on_a_small_stack(
    rt: HostRuntime,
) -> Result<(), Fail> {
    let alloc = rt.alloc();
    for (link, count) in [
        ("1 + ", 1_000_000),
        ("A || ", 800_000),
        ("1 ? 2 : ", 500_000),
    ] {
        let small = thread::Builder::new().stack_size(8 << 20);
        let status = small
            .spawn(
                &rt,
                move || status_of_chain(alloc, link, count).unwrap_or(5),
            )?
            .join(&rt);
        assert_eq!(rt; status, 11);
    }
    Ok(())
}
