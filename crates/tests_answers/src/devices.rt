//! Whole readings and writings over the sources and sinks.
use field_core::List;
use graph_io::{
    Failed, FailingSink, FailingSource, MemorySink, MemorySource, ReadEnd, Sink, StdSink,
    StdSource, WholeText, read_all, write_all,
};
use std::test::Fail;

#[test]
fn reads_to_the_end(rt: HostRuntime) -> Result<(), Fail> {
    let alloc = rt.alloc();
    let mut source = MemorySource::new(List::of(b"alpha 1/40".to_vec(alloc)?));
    let read = read_all(alloc, &mut source, 10)?;
    assert!(rt; read.as_slice() == b"alpha 1/40".as_slice());
    Ok(())
}

#[test]
fn reads_over_short_takes(rt: HostRuntime) -> Result<(), Fail> {
    let alloc = rt.alloc();
    let mut source = FailingSource::new(
        List::of(b"alpha 1/40".to_vec(alloc)?),
        4,
        List::new(alloc),
    );
    let read = read_all(alloc, &mut source, 4_194_304)?;
    assert!(rt; read.as_slice() == b"alpha 1/40".as_slice());
    Ok(())
}

#[test]
fn stops_at_a_fault(rt: HostRuntime) -> Result<(), Fail> {
    let alloc = rt.alloc();
    let fails = List::of([2].to_vec(alloc)?);
    let mut source = FailingSource::new(List::of(b"alpha 1/40".to_vec(alloc)?), 4, fails);
    assert!(rt; read_all(alloc, &mut source, 10).err() == Some(ReadEnd::Fault));
    let rest = read_all(alloc, &mut source, 10)?;
    assert!(rt; rest.as_slice() == b"a 1/40".as_slice());
    Ok(())
}

#[test]
fn refuses_too_many_bytes(rt: HostRuntime) -> Result<(), Fail> {
    let alloc = rt.alloc();
    let mut source = MemorySource::new(List::of(b"alpha 1/40".to_vec(alloc)?));
    assert!(rt; read_all(alloc, &mut source, 6).err() == Some(ReadEnd::TooLong(7)));
    let rest = read_all(alloc, &mut source, 6)?;
    assert!(rt; rest.as_slice() == b"/40".as_slice());
    Ok(())
}

#[test]
fn writes_what_fits(rt: HostRuntime) -> Result<(), Fail> {
    let mut sink = MemorySink::with_room(rt.alloc(), 8)?;
    write_all(&mut sink, b"reject")?;
    assert!(rt; sink.held() == b"reject".as_slice());
    assert!(rt; sink.put(b" H1") == Ok(2));
    assert!(rt; sink.put(b"1") == Err(Failed));
    assert!(rt; sink.put(b"") == Ok(0));
    assert!(rt; sink.held() == b"reject H".as_slice());
    Ok(())
}

/// Whether a sink that grows holds each piece whole, one after another.
#[test]
fn holds_a_whole_text(rt: HostRuntime) -> Result<(), Fail> {
    let alloc = rt.alloc();
    let mut sink = WholeText::new(alloc);
    write_all(&mut sink, b"reject")?;
    assert!(rt; sink.put(b"") == Ok(0));
    assert!(rt; sink.put(b" H1") == Ok(3));
    assert!(rt; sink.into_text().as_slice() == b"reject H1".as_slice());
    Ok(())
}

#[test]
fn keeps_what_came_before_a_fault(rt: HostRuntime) -> Result<(), Fail> {
    let alloc = rt.alloc();
    let mut sink = FailingSink::new(alloc, 5, List::of([2].to_vec(alloc)?))?;
    assert!(rt; write_all(&mut sink, b"reject H1") == Err(Failed));
    assert!(rt; sink.held() == b"rejec".as_slice());
    write_all(&mut sink, b"t H1")?;
    assert!(rt; sink.held() == b"reject H1".as_slice());
    Ok(())
}

#[test]
fn adapts_readers_and_writers(rt: HostRuntime) -> Result<(), Fail> {
    let alloc = rt.alloc();
    let mut source = StdSource::new(b"alpha 1/40".as_slice());
    let read = read_all(alloc, &mut source, 10)?;
    assert!(rt; read.as_slice() == b"alpha 1/40".as_slice());
    let mut written = Vec::new(alloc);
    write_all(&mut StdSink::new(&mut written), read.as_slice())?;
    assert!(rt; written.as_slice() == b"alpha 1/40".as_slice());
    Ok(())
}
