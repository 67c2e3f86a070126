//! Calls with ample memory.
use crate::{welungad_interface, welungad_read, welungad_run, welungad_test_rows, welungad_update};
use std::alloc::Global;
use std::process::Abort;
use std::test::Fail;

/// Holm's procedure on two hypotheses at 0.05. H1 is tested at 0.025 and rejected; then H2 is tested at 0.05 and is not.
const CASE: &[u8] = b"alpha 0.05\nhypotheses H1 H2\np 0.02 0.06\nweights 1/2 1/2\nedge H1 H2 1\n";

const REPORT: &[u8] =
    b"alpha 1/20\nstep 1 H1 p 1/50 weight 1/2\nkept H2 p 3/50 weight 1\nrejected H1\nadjusted H1 1/25\nadjusted H2 3/50\nend\n";

/// Tests a call that has `room` bytes to write to: its status, the length of the whole text, and the bytes that are put; those
/// after them stay.
fn expect(
    rt: &impl Abort,
    alloc: Global,
    words: &[u8],
    room: usize,
    (status, length, put): (u8, usize, &[u8]),
) -> Result<(), Fail> {
    let mut out = Vec::from_elem(alloc, b'.', room)?;
    let mut needed = 999;
    assert!(rt; welungad_run(alloc, words, CASE, b"", out.as_mut_slice(), &mut needed) == status);
    assert!(rt; needed == length);
    match out.as_slice().strip_prefix(put) {
        Some(rest) => assert!(rt; rest.iter().all(|byte| *byte == b'.')),
        None => panic!(rt; "another text"),
    }
    Ok(())
}

/// Whether the number of the interface is that of the header.
#[test]
fn interface(rt: HostRuntime) -> Result<(), Fail> {
    assert!(rt; welungad_interface() == 1);
    Ok(())
}

/// Whether a text that fits is put with its status, and one that doesn't is reported with its length.
#[test]
fn answers_a_case(rt: HostRuntime) -> Result<(), Fail> {
    let alloc = rt.alloc();
    expect(&rt, alloc, b"test\0", 200, (0, REPORT.len(), REPORT))?;
    expect(
        &rt,
        alloc,
        b"test\0",
        REPORT.len(),
        (0, REPORT.len(), REPORT),
    )?;
    expect(&rt, alloc, b"test\0", 5, (7, REPORT.len(), b"alpha"))
}

/// Whether words that the program refuses have another status than bytes that are not words.
#[test]
fn refuses_words(rt: HostRuntime) -> Result<(), Fail> {
    let alloc = rt.alloc();
    expect(&rt, alloc, b"", 20, (2, 14, b"usage: word 1\n"))?;
    expect(&rt, alloc, b"test", 20, (10, 0, b""))?;
    expect(&rt, alloc, b"t\xFFst\0", 20, (10, 0, b""))
}

/// Whether 0.025, 0.1 + 0.2, the least double and a NaN get their four words, and nothing is written if `out` has more or fewer.
#[test]
fn reads_doubles(rt: HostRuntime) -> Result<(), Fail> {
    let doubles = [
        0x3f99_9999_9999_999a,
        0x3fd3_3333_3333_3334,
        1,
        0x7ff8_0000_0000_0000,
    ];
    let mut out = [7u64; 16];
    assert!(rt; welungad_read(&doubles, &mut out) == 0);
    assert!(rt; out[..8] == [1, 0, 40, 0, 7500000000000001, 0, 25000000000000000, 0]);
    // 10^30 is 54210108624 * 2^64 + 5076944270305263616
    assert!(rt; out[8..] == [1, 0, 5076944270305263616, 54210108624, 0, 0, 0, 0]);
    assert!(rt; welungad_read(&doubles[..3], &mut out) == 11);
    assert!(rt; welungad_read(&doubles[..3], &mut out[..11]) == 11);
    assert!(rt; out[0] == 1);
    Ok(())
}

/// Decides a case with three rows: 0.025 for H1 and 0.05 for H2, then 0.06 and 0, then 2 and 0.
fn decide_rows(alloc: Global, case: &[u8], marks: &mut [u8], statuses: &mut [u8]) -> u8 {
    let doubles = [
        0x3f99_9999_9999_999a,
        0x3fa9_9999_9999_999a,
        0x3fae_b851_eb85_1eb8,
        0,
        0x4000_0000_0000_0000,
        0,
    ];
    welungad_test_rows(alloc, case, &doubles, marks, statuses)
}

/// Whether rows are decided, one with a double that has no reading is not, and nothing is written if the case is refused, has stages, or
/// the lengths don't fit.
#[test]
fn decides_rows(rt: HostRuntime) -> Result<(), Fail> {
    let alloc = rt.alloc();
    let mut marks = [9u8; 6];
    let mut statuses = [9u8; 3];
    let staged = b"alpha 0.05\nhypotheses A B\nweights 1 0\nstages 1\nspend A 1\nspend B 1\n";
    assert!(rt; decide_rows(alloc, b"", &mut marks, &mut statuses) == 3);
    assert!(rt; decide_rows(alloc, staged, &mut marks, &mut statuses) == 3);
    assert!(rt; decide_rows(alloc, CASE, &mut marks, &mut statuses[..2]) == 11);
    assert!(rt; decide_rows(alloc, CASE, &mut marks[..4], &mut statuses) == 11);
    assert!(rt; marks == [9; 6]);
    assert!(rt; statuses == [9; 3]);
    assert!(rt; decide_rows(alloc, CASE, &mut marks, &mut statuses) == 0);
    assert!(rt; marks == [1, 1, 0, 1, 0, 0]);
    assert!(rt; statuses == [0, 0, 3]);
    Ok(())
}

/// The terms of the edge have a common denominator near 10^54, so it is too wide before any removal.
const WIDE: &[u8] =
    b"alpha 0.05\nhypotheses A B\nweights 1 0\nedge A B 1/1000000000000000000+1/999999999999999999*\\epsilon+1/999999999999999997*\\epsilon^2\n";

/// Tests the update of a case into `room` bytes: its status, the length of the whole text, and the bytes that are put; those after
/// them stay.
fn expect_update(
    rt: &impl Abort,
    alloc: Global,
    case: &[u8],
    removed: &[usize],
    room: usize,
    (status, length, put): (u8, usize, &[u8]),
) -> Result<(), Fail> {
    let mut out = Vec::from_elem(alloc, b'.', room)?;
    let mut needed = 999;
    assert!(rt; welungad_update(alloc, case, removed, out.as_mut_slice(), &mut needed) == status);
    assert!(rt; needed == length);
    match out.as_slice().strip_prefix(put) {
        Some(rest) => assert!(rt; rest.iter().all(|byte| *byte == b'.')),
        None => panic!(rt; "another text"),
    }
    Ok(())
}

/// Whether the graph after a removal is put, and one that doesn't fit is reported. A refused case and an undefined operation are
/// reported with their lines, and other positions put nothing.
#[test]
fn updates_a_case(rt: HostRuntime) -> Result<(), Fail> {
    let alloc = rt.alloc();
    let whole = b"component 1\nweight H2 1\nlevel H2 1\nend\n";
    expect_update(&rt, alloc, CASE, &[0], 99, (0, whole.len(), whole))?;
    expect_update(&rt, alloc, CASE, &[0], 9, (7, whole.len(), b"component"))?;
    expect_update(&rt, alloc, CASE, &[2], 99, (11, 0, b""))?;
    expect_update(&rt, alloc, CASE, &[1, 1], 99, (11, 0, b""))?;
    expect_update(
        &rt,
        alloc,
        b"",
        &[],
        99,
        (3, 25, b"malformed: line 1: ended\n"),
    )?;
    expect_update(
        &rt,
        alloc,
        WIDE,
        &[],
        99,
        (5, 43, b"too wide: step 0: component 1 edge A B add\n"),
    )
}
