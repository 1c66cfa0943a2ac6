//! Saved runs as bytes: a worked text both ways, and what comes of others. The outcomes were worked out from the format by another
//! program.

use run_file::{FileFault, read_run, write_run};
use site_message::{Journal, Limits, Lines, Picks, SentList, Turn, Units};
use std::alloc::{AllocError, Global};
use std::test::Fail;
use tree_node::{Line, ThreadName};

static WHOLE: &str =
    "ozrun 1 2 10 7 6\nskip\n%\nturn 1 - 1.0 1.0 1.3\nline 5\nline line \nturn 2 0\nend quiescent ended=2 waiting=0\n";

// Values, and what comes of each byte of the whole text set to them: '=' a saved run, '.' a fault at this byte, 'a' one at the byte
// before it, 'A' one at the next byte, and so on.
static OTHERS: [(u8, &str); 6] = [
    (
        0x30,
        ".........a.=D=BBA======.......a=..a=..a=..a=A.....==.....======......a=.....===========================A",
    ),
    (
        0x39,
        "........=a==D=BKA======.......a=..a=..a=..a=A.....==.....======......a=.....===========================A",
    ),
    (
        0x20,
        ".....=.=.=.A=.=..======.....=.=.=...=...=...A....===....=======....=.=.A...============================A",
    ),
    (
        0x0a,
        "................========........A...A...A...=.....A=.....AABAA=........=....AAAAAAAAAAAAAAAAAAAAAAAAAAA=",
    ),
    (
        0x00,
        ".................======...........................==.....======.............===========================A",
    ),
    (
        0xff,
        ".................======...........................==.....======.............===========================A",
    ),
];

// Texts that are no saved run, and where they go wrong.
static FAULTS: [(&str, usize); 45] = [
    ("", 0),
    ("\nozrun 1 ", 0),
    ("ozrum 1 ", 4),
    ("ozrun 2 ", 6),
    ("ozrun 12 ", 7),
    ("ozrun 1 0 ", 8),
    ("ozrun 1 01 ", 8),
    ("ozrun 1 65 ", 8),
    ("ozrun 1  1 ", 8),
    ("ozrun 1 18446744073709551617 ", 8),
    ("ozrun 1 6", 9),
    ("ozrun 1 6x", 9),
    ("ozrun 1 64 0 ", 11),
    ("ozrun 1 64 1000000001 ", 11),
    ("ozrun 1 64 1000000000 4000000001 ", 22),
    ("ozrun 1 64 1 00 ", 14),
    ("ozrun 1 1 1 -1 ", 12),
    // lengths that are out of range, too large, and too small
    ("ozrun 1 1 1 0 1048577\n", 14),
    ("ozrun 1 1 1 0 18446744073709551616\n", 14),
    ("ozrun 1 1 1 0 1048576\n", 22),
    ("ozrun 1 1 1 0 3\nab", 18),
    ("ozrun 1 1 1 0 5\nab\nend x\n", 21),
    ("ozrun 1 1 1 0 2\nabc", 18),
    ("ozrun 1 1 1 0 2\n12\n3", 19),
    // entries
    ("ozrun 1 1 1 0 0\n\n", 17),
    ("ozrun 1 1 1 0 0\n\nline 5\n", 17),
    ("ozrun 1 1 1 0 0\n\ntail", 18),
    ("ozrun 1 1 1 0 0\n\nturn 0 -\n", 22),
    ("ozrun 1 1 1 0 0\n\nturn 2 ", 22),
    ("ozrun 1 1 1 0 0\n\nturn 1 -5\n", 25),
    ("ozrun 1 1 1 0 0\n\nturn 1 007\n", 25),
    ("ozrun 1 1 1 0 0\n\nturn 1 18446744073709551615\n", 45),
    ("ozrun 1 1 1 0 0\n\nturn 1 18446744073709551616\n", 24),
    ("ozrun 1 1 1 0 0\n\nturn 1 99999999999999999999999999\n", 24),
    ("ozrun 1 1 1 0 0\n\nturn 1 - 2.0\n", 26),
    ("ozrun 1 1 1 0 0\n\nturn 1 - 1,0\n", 27),
    ("ozrun 1 1 1 0 0\n\nturn 1 - 1.00\n", 29),
    ("ozrun 1 1 1 0 0\n\nturn 1 - 1.0\r\n", 29),
    ("ozrun 1 1 1 0 0\n\nturn 1 - 1.0 \n", 30),
    ("ozrun 1 1 1 0 0\n\nturn 1 - 1.18446744073709551616\n", 28),
    // lines
    ("ozrun 1 1 1 0 0\n\nturn 1 -\nline 5", 32),
    ("ozrun 1 1 1 0 0\n\nturn 1 -\nliner\n", 30),
    ("ozrun 1 1 1 0 0\n\nend ", 21),
    ("ozrun 1 1 1 0 0\n\nend x\ny", 23),
    ("ozrun 1 1 1 0 0\n\nend x\n\n", 23),
];

// Where bytes go wrong; none where they are a saved run.
fn place_of(alloc: Global, bytes: &[u8]) -> Result<Option<usize>, AllocError> {
    match read_run(alloc, bytes) {
        Ok(_) => Ok(None),
        Err(FileFault::Bad(at)) => Ok(Some(at)),
        Err(FileFault::Memory) => Err(AllocError),
    }
}

// Where a letter of the table says that its row goes wrong.
fn outcome(letter: u8, place: usize) -> Option<usize> {
    match letter {
        b'=' => None,
        b'.' => Some(place),
        b'a'..=b'z' => Some(place.saturating_sub(usize::from(letter.saturating_sub(b'a')) + 1)),
        _ => Some(place.saturating_add(usize::from(letter.saturating_sub(b'A')) + 1)),
    }
}

#[test]
fn other_bytes_go_wrong_there(rt: HostRuntime) -> Result<(), Fail> {
    for (value, letters) in OTHERS.as_slice() {
        assert_eq!(rt; letters.len(), WHOLE.len(), "{value}");
        for (place, letter) in letters.as_bytes().iter().enumerate() {
            let mut bytes = Vec::from_slice(rt.alloc(), WHOLE.as_bytes())?;
            if let Some(byte) = bytes.get_mut(place) {
                *byte = *value;
            }
            let told = place_of(rt.alloc(), &bytes)?;
            assert_eq!(rt; told, outcome(*letter, place), "{value} at {place}");
        }
    }
    Ok(())
}

#[test]
fn texts_go_wrong_there(rt: HostRuntime) -> Result<(), Fail> {
    for (text, place) in FAULTS.as_slice() {
        let told = place_of(rt.alloc(), text.as_bytes())?;
        assert_eq!(rt; told, Some(*place), "{text}");
    }
    Ok(())
}

#[test]
fn every_front_goes_wrong_at_its_end(rt: HostRuntime) -> Result<(), Fail> {
    let bytes = WHOLE.as_bytes();
    for len in 0..bytes.len() {
        let told = place_of(rt.alloc(), &bytes[..len])?;
        assert_eq!(rt; told, Some(len), "{len}");
    }
    Ok(())
}

// A line.
fn line(alloc: Global, text: &str) -> Result<Line, AllocError> {
    Ok(Line::from_vec(Vec::from_slice(alloc, text.as_bytes())?)?)
}

// Units of thread 0 of site 1, and one of thread 3.
fn units_of(alloc: Global, count: usize) -> Result<Units, AllocError> {
    let mut units = Units::new(alloc);
    for _ in 0..count {
        units.push(ThreadName { site: 1, num: 0 })?;
    }
    units.push(ThreadName { site: 1, num: 3 })?;
    Ok(units)
}

// A turn with these units and lines.
fn turn(alloc: Global, site: u32, delivered: Option<u64>, units: Units, lines: Lines) -> Turn {
    Turn {
        site,
        delivered,
        units,
        picks: Picks::new(),
        sent: SentList::new(alloc),
        lines,
        idle: true,
        ended: 1,
        waiting: 0,
        steps: 1,
    }
}

// The journal of the whole text, with so many units before the last one of the first entry.
fn journal(alloc: Global, count: usize) -> Result<Journal, AllocError> {
    let mut lines = Lines::new(alloc);
    lines.push(line(alloc, "5")?)?;
    lines.push(line(alloc, "line ")?)?;
    let first = turn(alloc, 1, None, units_of(alloc, count)?, lines);
    let second = turn(alloc, 2, Some(0), Units::new(alloc), Lines::new(alloc));
    let mut journal = Journal::new(alloc);
    if journal.push(first).is_err() || journal.push(second).is_err() {
        journal.forget();
        return Err(AllocError);
    }
    Ok(journal)
}

// The text of that journal.
fn saved(alloc: Global, count: usize) -> Result<Vec<u8>, AllocError> {
    let limits = Limits {
        sites: 2,
        steps: 10,
        messages: 7,
    };
    let end = line(alloc, "quiescent ended=2 waiting=0")?;
    let journal = journal(alloc, count)?;
    let text = write_run(alloc, b"skip\n%", limits, &journal, &end);
    journal.forget();
    Ok(text?.into_vec())
}

#[test]
fn a_journal_has_this_text(rt: HostRuntime) -> Result<(), Fail> {
    let text = saved(rt.alloc(), 2)?;
    assert_eq!(rt; text.as_slice(), WHOLE.as_bytes());
    let told = place_of(rt.alloc(), &text)?;
    assert_eq!(rt; told, None);
    Ok(())
}

// 64 units are read back; the 65th is wrong at its blank, behind 64 units of four bytes each and the 32 bytes before them.
#[test]
fn a_turn_has_64_units(rt: HostRuntime) -> Result<(), Fail> {
    let most = saved(rt.alloc(), 63)?;
    let told = place_of(rt.alloc(), &most)?;
    assert_eq!(rt; told, None);
    let more = saved(rt.alloc(), 64)?;
    let told = place_of(rt.alloc(), &more)?;
    assert_eq!(rt; told, Some(288));
    Ok(())
}
