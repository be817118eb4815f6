//! Sources and sinks.

use lists::{Listed, Text};
use outside::{
    CallNumbers, Delivery, MemSink, MemSource, ReadAns, Sink, Source, WriteAns, write_all,
};
use std::alloc::{AllocError, Global};
use std::test::Fail;

fn calls(alloc: Global, numbers: &[u64]) -> Result<CallNumbers, AllocError> {
    Listed::from_slice(alloc, numbers)
}

#[test]
fn a_source_gives_pieces_and_fails_at_its_calls_alone(rt: HostRuntime) -> Result<(), Fail> {
    let bytes = Text::from_bytes(rt.alloc(), b"abc")?;
    let mut source = MemSource::new(bytes, 2, calls(rt.alloc(), &[2])?);
    let mut room = [b'.'; 4];
    let answers = [
        ReadAns::Got(2),
        ReadAns::Failed,
        ReadAns::Got(1),
        ReadAns::End,
    ];
    for answer in answers {
        assert_eq!(rt; source.read(&mut room), answer);
    }
    assert_eq!(rt; room.as_slice(), b"cb..".as_slice());
    Ok(())
}

#[test]
fn a_sink_takes_all_and_fails_at_its_calls_alone(rt: HostRuntime) -> Result<(), Fail> {
    let mut sink = MemSink::new(rt.alloc(), calls(rt.alloc(), &[2, 4])?);
    assert_eq!(rt; sink.write(b"ab"), WriteAns::Took(2));
    assert_eq!(rt; sink.write(b"cd"), WriteAns::Failed);
    assert_eq!(rt; write_all(&mut sink, b"efg"), Delivery::Whole);
    assert_eq!(rt; write_all(&mut sink, b"h"), Delivery::Failed);
    assert_eq!(rt; sink.written(), b"abefg".as_slice());
    assert!(rt; !sink.is_starved());
    Ok(())
}
