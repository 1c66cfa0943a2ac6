//! Texts that run on several sites, and what may be printed of them.

use crate::endless::{ENDLESS, FAR_STREAM};
use crate::port_programs::{HOMES, LIMITED, PORTS};
use crate::rows::COUNTER;
use crate::site_programs::{CELLS, RAISED, SENT, SITES, SiteProgram, TESTED, THREADS};
use crate::site_texts::{FRONTS, RACE, RACED, SEEDS, SITED, SiteText, THIRD};
use crate::texts::{answer, give_up, report_of, with_workers};
use oz_base::{MemSink, MemSource};
use oz_runner::OpenGate;
use site_message::Journal;
use std::alloc::{AllocError, Global};
use std::process::Abort;
use std::sync::Wait;
use std::test::Fail;
use std::thread::Threads;

// Whether the bytes are one of the outputs.
fn is_among(bytes: &[u8], outputs: &[&str]) -> bool {
    outputs.iter().any(|output| output.as_bytes() == bytes)
}

// These words and this text have one of these outputs, and this number.
fn prints_one_of<R: Abort + Threads + Wait + Sync>(
    rt: &R,
    alloc: Global,
    words: &[&str],
    text: &str,
    outputs: &[&str],
    number: u8,
) -> Result<(), AllocError> {
    let told = answer(rt, alloc, words, text.as_bytes(), &[], &[])?;
    assert!(rt; is_among(&told.0, outputs), "{words:?} {text}");
    assert_eq!(rt; told.1, number, "{words:?} {text}");
    Ok(())
}

// So do these texts on each number of sites, with so many workers.
fn print_on_all_sites<R: Abort + Threads + Wait + Sync>(
    rt: &R,
    alloc: Global,
    workers: &'static str,
    rows: &[SiteProgram],
) -> Result<(), AllocError> {
    for row in rows {
        for sites in SITES.as_slice() {
            let words = with_workers(alloc, sites, workers)?;
            prints_one_of(rt, alloc, &words, row.0, row.1, row.2)?;
        }
    }
    Ok(())
}

// So do these texts, each by its words.
fn print_as_said<R: Abort + Threads + Wait + Sync>(
    rt: &R,
    alloc: Global,
    workers: &'static str,
    rows: &[SiteText],
) -> Result<(), AllocError> {
    for row in rows {
        let words = with_workers(alloc, row.0, workers)?;
        prints_one_of(rt, alloc, &words, row.1, row.2, row.3)?;
    }
    Ok(())
}

// Two runs of a text by these words and so many workers print the same, and have schedules of the same length.
fn prints_twice<R: Abort + Threads + Wait + Sync>(
    rt: &R,
    alloc: Global,
    words: &[&'static str],
    text: &str,
    workers: &'static str,
) -> Result<(), AllocError> {
    let words = with_workers(alloc, words, workers)?;
    let first = answer(rt, alloc, &words, text.as_bytes(), &[], &[])?;
    let second = answer(rt, alloc, &words, text.as_bytes(), &[], &[])?;
    assert_eq!(rt; first.0.as_slice(), second.0.as_slice());
    assert_eq!(rt; first.2, second.2);
    Ok(())
}

#[test]
fn worked_texts_have_a_lawful_output(rt: HostRuntime) -> Result<(), Fail> {
    for workers in ["0", "1", "2", "4"] {
        print_as_said(&rt, rt.alloc(), workers, SITED.as_slice())?;
    }
    Ok(())
}

#[test]
fn texts_without_an_end_are_stopped_behind_their_lines(rt: HostRuntime) -> Result<(), Fail> {
    for workers in ["0", "1", "4"] {
        print_as_said(&rt, rt.alloc(), workers, ENDLESS.as_slice())?;
    }
    Ok(())
}

// Whether the bytes are the first of these lines, each whole, and then the line of a run that was stopped at the first site or the
// second.
fn is_front(bytes: &[u8], lines: &[u8]) -> bool {
    for end in ["stopped steps site=1\n", "stopped steps site=2\n"] {
        if let Some(front) = bytes.strip_suffix(end.as_bytes()) {
            return lines.starts_with(front) && (front.is_empty() || front.ends_with(b"\n"));
        }
    }
    false
}

// The numbers from 0 on, a line for each.
fn number_lines(alloc: Global, count: u64) -> Result<Vec<u8>, AllocError> {
    let mut lines = Vec::new(alloc);
    for number in 0..count {
        let line = format!(in alloc; "{number}\n")?;
        lines.extend_from_slice(line.as_bytes())?;
    }
    Ok(lines)
}

// A number takes eleven steps where the list is made, and nineteen come before.
#[test]
fn an_endless_list_is_shown_in_order_at_another_site(rt: HostRuntime) -> Result<(), Fail> {
    let alloc = rt.alloc();
    let lines = number_lines(alloc, 181)?;
    for workers in ["0", "1", "2"] {
        let words = with_workers(alloc, &["--sites", "2", "--steps", "2000"], workers)?;
        let told = answer(&rt, alloc, &words, FAR_STREAM.as_bytes(), &[], &[])?;
        assert!(rt; is_front(&told.0, &lines));
        assert_eq!(rt; told.1, 4);
    }
    Ok(())
}

#[test]
fn any_number_of_sites_prints_what_is_lawful(rt: HostRuntime) -> Result<(), Fail> {
    let alloc = rt.alloc();
    for workers in ["0", "3"] {
        print_on_all_sites(&rt, alloc, workers, SENT.as_slice())?;
        print_on_all_sites(&rt, alloc, workers, TESTED.as_slice())?;
        print_on_all_sites(&rt, alloc, workers, THREADS.as_slice())?;
        print_on_all_sites(&rt, alloc, workers, CELLS.as_slice())?;
        print_on_all_sites(&rt, alloc, workers, RAISED.as_slice())?;
    }
    Ok(())
}

#[test]
fn ports_and_stationary_cells_are_the_same_on_any_number_of_sites(
    rt: HostRuntime,
) -> Result<(), Fail> {
    let alloc = rt.alloc();
    for workers in ["0", "4"] {
        print_on_all_sites(&rt, alloc, workers, PORTS.as_slice())?;
        print_on_all_sites(&rt, alloc, workers, HOMES.as_slice())?;
    }
    Ok(())
}

#[test]
fn limits_end_runs_in_the_middle_of_requests(rt: HostRuntime) -> Result<(), Fail> {
    for workers in ["0", "1", "4"] {
        print_as_said(&rt, rt.alloc(), workers, LIMITED.as_slice())?;
    }
    Ok(())
}

#[test]
fn a_failed_write_leaves_the_lines_before(rt: HostRuntime) -> Result<(), Fail> {
    let alloc = rt.alloc();
    for row in FRONTS.as_slice() {
        let words: [&str; 2] = ["--sites", "3"];
        let told = answer(&rt, alloc, &words, RACE.as_bytes(), &[], row.0)?;
        assert!(rt; is_among(&told.0, row.1));
        assert_eq!(rt; told.1, 7);
    }
    Ok(())
}

#[test]
fn two_runs_print_the_same(rt: HostRuntime) -> Result<(), Fail> {
    let alloc = rt.alloc();
    prints_twice(&rt, alloc, &["--sites", "3"], COUNTER, "0")?;
    prints_twice(&rt, alloc, &["--sites", "3"], RACE, "0")?;
    prints_twice(&rt, alloc, &["--sites", "1"], RACE, "0")?;
    prints_twice(&rt, alloc, &["central"], RACE, "0")?;
    Ok(())
}

#[test]
fn two_runs_with_one_seed_print_the_same(rt: HostRuntime) -> Result<(), Fail> {
    let alloc = rt.alloc();
    for seed in SEEDS.as_slice() {
        prints_twice(&rt, alloc, &["--sites", "3", "--seed", seed], COUNTER, "4")?;
        prints_twice(&rt, alloc, &["--sites", "3", "--seed", seed], RACE, "4")?;
    }
    Ok(())
}

#[test]
fn seeds_show_several_outputs(rt: HostRuntime) -> Result<(), Fail> {
    let alloc = rt.alloc();
    let mut came = [false; 4];
    for seed in SEEDS.as_slice() {
        let words: [&str; 4] = ["--sites", "3", "--seed", seed];
        let told = answer(&rt, alloc, &words, RACE.as_bytes(), &[], &[])?;
        for at in 0..RACED.len() {
            if told.0.as_slice() == RACED[at].as_bytes() {
                came[at] = true;
            }
        }
    }
    assert!(rt; came[0] && came[1]);
    Ok(())
}

// Whether lines stand in turns of a site, and in no others.
fn has_lines_of(journal: &Journal, site: u32) -> bool {
    let mut found = false;
    for turn in journal.oldest_first() {
        if !turn.lines.as_slice().is_empty() {
            if turn.site != site {
                return false;
            }
            found = true;
        }
    }
    found
}

// The line stands in a turn of the third site, and in no other.
#[test]
fn a_line_stands_in_a_turn_of_its_site(rt: HostRuntime) -> Result<(), Fail> {
    let alloc = rt.alloc();
    let mut source = MemSource::new(THIRD.as_bytes(), &[]);
    let mut sink = MemSink::new(alloc, &[], 2000)?;
    let words: [&str; 2] = ["--sites", "3"];
    let report = report_of(&rt, alloc, &words, &mut source, &mut sink, &OpenGate)?;
    let found = has_lines_of(&report.journal, 3);
    give_up(report);
    assert!(rt; found);
    Ok(())
}
