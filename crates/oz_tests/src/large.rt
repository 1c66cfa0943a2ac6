//! The large text of a size, which is made from the size.

use crate::texts::{answer, with_workers};
use std::alloc::{AllocError, Global};
use std::process::Abort;
use std::sync::Wait;
use std::test::Fail;
use std::thread::Threads;

const FOUR: &str = "280\n40\nquiescent ended=13 waiting=0\n";

const THOUSAND: &str = "5050000\n10000\nquiescent ended=3001 waiting=0\n";

const TWO: &str = "120\n20\nquiescent ended=7 waiting=0\n";

// The text of size 2, as the reference has it.
const TEXT_OF_TWO: &str = "local C E Z One J P Q R in Z = 0 One = 1 J = 10
{NewCell Z C} {NewCell Z E}
P = proc {$ K J S} local B in B = J =< Z if B then S = nil else local O M K1 J1 T in {Exchange C O M} M = O + One K1 = K + One J1 = J - One S = K|T {P K1 J1 T} end end end end
Q = proc {$ S A D} case S of H|T then local F in F = A + H {Q T F D} end else D = A end end
R = proc {$ D} local O M in {Exchange E O M} thread M = O + D end end end
local K S D in K = 1 thread at 1 {P K J S} end thread at 2 {Q S Z D} end {R D} end
local K S D in K = 2 thread at 2 {P K J S} end thread at 3 {Q S Z D} end {R D} end
local T V in {Exchange E T T} {Browse T} {Exchange C V V} {Browse V} end end
";

// What is printed of a size on so many sites, by none and by four workers. The source, whose first call would fail, is not read.
fn expect_output<R: Abort + Threads + Wait + Sync>(
    rt: &R,
    alloc: Global,
    sites: &'static str,
    size: &'static str,
    lines: &str,
) -> Result<(), AllocError> {
    for workers in ["0", "4"] {
        let words = with_workers(alloc, &["--sites", sites, "gen", size], workers)?;
        let told = answer(rt, alloc, &words, b"", &[1], &[])?;
        assert_eq!(rt; told.0.as_slice(), lines.as_bytes());
        assert_eq!(rt; told.1, 0);
    }
    Ok(())
}

#[test]
fn a_large_run_prints_the_same_on_all_sites(rt: HostRuntime) -> Result<(), Fail> {
    let alloc = rt.alloc();
    for sites in ["1", "3", "64"] {
        expect_output(&rt, alloc, sites, "4", FOUR)?;
    }
    Ok(())
}

#[test]
fn the_largest_run_prints_its_sums(rt: HostRuntime) -> Result<(), Fail> {
    expect_output(&rt, rt.alloc(), "4", "1000", THOUSAND)?;
    Ok(())
}

// All run the same text: the first two without workers, so that their schedules have one length, too.
#[test]
fn a_large_text_is_that_of_its_size(rt: HostRuntime) -> Result<(), Fail> {
    let alloc = rt.alloc();
    let made = answer(&rt, alloc, &["--workers", "0", "gen", "2"], b"", &[1], &[])?;
    let given = answer(
        &rt,
        alloc,
        &["--workers", "0"],
        TEXT_OF_TWO.as_bytes(),
        &[],
        &[],
    )?;
    assert_eq!(rt; made.0.as_slice(), TWO.as_bytes());
    assert_eq!(rt; given.0.as_slice(), TWO.as_bytes());
    assert_eq!(rt; given.2, made.2);
    let central = answer(&rt, alloc, &["central"], TEXT_OF_TWO.as_bytes(), &[], &[])?;
    assert_eq!(rt; central.0.as_slice(), TWO.as_bytes());
    Ok(())
}
