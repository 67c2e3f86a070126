//! Answers and refusals, and the texts that are put for them.
use crate::whole::bytes_refusal;
use crate::{Answer, Cause, Refusal, Status, Stop, conclude, take_whole};
use field_core::{List, NoMemory};
use graph_io::{FailingSource, MemorySink, MemorySource};
use std::alloc::Global;
use std::process::Abort;
use std::test::Fail;

#[test]
fn too_many_bytes(rt: HostRuntime) -> Result<(), Fail> {
    let refusal = bytes_refusal(rt.alloc(), b"", 4_194_305)?;
    assert_eq!(rt;
        refusal.line.as_slice(),
        b"limit: bytes 4194305\n".as_slice()
    );
    assert_eq!(rt; refusal.cause, Cause::Limit);
    let refusal = bytes_refusal(rt.alloc(), b"proof ", 4_194_305)?;
    assert_eq!(rt;
        refusal.line.as_slice(),
        b"limit: proof bytes 4194305\n".as_slice()
    );
    Ok(())
}

#[test]
fn a_whole_input(rt: HostRuntime) -> Result<(), Fail> {
    let alloc = rt.alloc();
    let mut source = MemorySource::new(List::of(b"alpha 1\n".to_vec(alloc)?));
    match take_whole(alloc, b"", &mut source) {
        Ok(bytes) => assert_eq!(rt; bytes.as_slice(), b"alpha 1\n".as_slice()),
        Err(_) => panic!(rt; "not taken"),
    }
    let mut failing = FailingSource::new(
        List::of(b"alpha 1\n".to_vec(alloc)?),
        4,
        List::of([2].to_vec(alloc)?),
    );
    match take_whole(alloc, b"", &mut failing) {
        Err(Stop::ReadFault) => Ok(()),
        _ => panic!(rt; "no fault"),
    }
}

/// Asserts which status `conclude` returns for an outcome, and which text it puts.
fn expect(
    rt: &impl Abort,
    alloc: Global,
    outcome: &Result<Answer, Stop>,
    (status, held): (u8, &[u8]),
) -> Result<(), NoMemory> {
    let mut out = MemorySink::with_room(alloc, 64)?;
    assert_eq!(rt; conclude(&mut out, outcome), status);
    assert_eq!(rt; out.held(), held);
    Ok(())
}

#[test]
fn each_outcome_is_put(rt: HostRuntime) -> Result<(), Fail> {
    let alloc = rt.alloc();
    let done = Ok(Answer::done(List::of(b"end\n".to_vec(alloc)?)));
    expect(&rt, alloc, &done, (0, b"end\n"))?;
    let no = Ok(Answer {
        status: Status::No,
        text: List::of(b"no\n".to_vec(alloc)?),
    });
    expect(&rt, alloc, &no, (1, b"no\n"))?;
    let causes = [
        (Cause::Usage, 2),
        (Cause::Malformed, 3),
        (Cause::Limit, 4),
        (Cause::TooWide, 5),
    ];
    for (cause, status) in causes {
        let refusal = Refusal::of_line(cause, List::of(b"why".to_vec(alloc)?))?;
        expect(&rt, alloc, &Err(Stop::Refused(refusal)), (status, b"why\n"))?;
    }
    expect(&rt, alloc, &Err(Stop::ReadFault), (6, b"read fault\n"))?;
    expect(&rt, alloc, &Err(Stop::NoMemory), (8, b"no memory\n"))?;
    expect(&rt, alloc, &Err(Stop::KeeperFault), (9, b"keeper fault\n"))?;
    Ok(())
}
