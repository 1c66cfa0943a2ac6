//! Bytes as saved runs.

ghost use Rattle.std.specs.Prelude.{◌≡◌, ◌⊎◌, ◌<◌, List, length, IfOk, IfErr, Ok, Err};
ghost use Rattle.tree_node.specs.declared.names.ThreadName.{ThreadName as AThread};
ghost use Rattle.byte_fields.specs.declared.fault.FileFault.TheVariants.{Bad, Memory};
ghost use Rattle.byte_fields.specs.declared.fault.FileFault.{FileFault as AFault};
ghost use Rattle.run_file.specs.Saved.{SavedRun, Saved, IsFirstFault};
ghost use Rattle.byte_fields.specs.TextReading.{IsReadAs};
ghost use Rattle.byte_fields.specs.Reading.{map_at, IsReadAsWhole};
ghost use Rattle.run_file.specs.Reading.{thread_at, unit_at, units_at, delivered_at, printed_at, lines_at, entry_at, entries_at, counted_text_at, header_at, end_at, run_at};
ghost use Rattle.run_file.specs.Parts.{header_of};

use crate::entry::Entry;
use crate::file::{Header, RunFile};
use byte_fields::{Cursor, FileFault};
use site_message::{Lines, Units};
use std::alloc::Global;
use tree_node::{Line, MOST_MESSAGES, MOST_SITES, MOST_STEPS, MOST_UNITS, Seq, ThreadName};

/// How many bytes a program's text has at most.
const MOST_BYTES: u64 = 1_048_576;

// A thread of one of the sites.
#[tactic(auto, unfolding(crate::specs::Reading::thread_at))]
fn thread(cursor: &mut Cursor, sites: u32) -> Result<ThreadName, FileFault>
    ensures { IsReadAs (thread_at sites) cursor.old cursor.new result }
{
    let site = cursor.number(1, u64::from(sites))?;
    cursor.word(b".")?;
    let num = cursor.number(0, u64::MAX)?;
    Ok(ThreadName {
        site: site as u32,
        num,
    })
}

// A unit, behind so many others.
#[tactic(auto, unfolding(crate::specs::Reading::unit_at))]
fn unit(cursor: &mut Cursor, sites: u32, count: usize) -> Result<ThreadName, FileFault>
    ensures read { (front : List AThread) → length front ≡ count → IsReadAs (unit_at sites front) cursor.old cursor.new result }
    ensures within { IfOk result (λ th. count < MOST_UNITS) }
{
    if count >= MOST_UNITS as usize {
        return Err(FileFault::Bad(cursor.place()));
    }
    cursor.word(b" ")?;
    thread(cursor, sites)
}

// The units of a turn.
fn units(alloc: Global, cursor: &mut Cursor, sites: u32) -> Result<Units, FileFault>
    ensures { IsReadAs (units_at sites) cursor.old cursor.new result }
{
    let mut units = Units::new(alloc);
    let mut count = 0;
    'items: while cursor.begins_with(b' ') {
        let next = unit(cursor, sites, count)?;
        units.push(next)?;
        count += 1;
    }
    Ok(units)
}

// The number of the message that was delivered, or none.
#[tactic(auto, unfolding(crate::specs::Reading::delivered_at))]
fn delivered(cursor: &mut Cursor) -> Result<Option<u64>, FileFault>
    ensures { IsReadAs delivered_at cursor.old cursor.new result }
{
    if cursor.takes(b'-') {
        return Ok(None);
    }
    Ok(Some(cursor.number(0, u64::MAX)?))
}

// A printed line.
#[tactic(auto, unfolding(crate::specs::Reading::printed_at))]
fn printed(alloc: Global, cursor: &mut Cursor) -> Result<Line, FileFault>
    ensures { IsReadAs printed_at cursor.old cursor.new result }
{
    cursor.word(b"line ")?;
    let bytes = cursor.line()?;
    Ok(Line::from_vec(Vec::from_slice(alloc, bytes)?)?)
}

// The lines of a turn.
fn lines(alloc: Global, cursor: &mut Cursor) -> Result<Lines, FileFault>
    ensures { IsReadAs lines_at cursor.old cursor.new result }
{
    let mut lines = Lines::new(alloc);
    'items: while cursor.begins_with(b'l') {
        let next = printed(alloc, cursor)?;
        lines.push(next)?;
    }
    Ok(lines)
}

// An entry.
#[tactic(auto, unfolding(crate::specs::Reading::entry_at))]
fn entry(alloc: Global, cursor: &mut Cursor, sites: u32) -> Result<Entry, FileFault>
    ensures { IsReadAs (entry_at sites) cursor.old cursor.new result }
{
    cursor.word(b"turn ")?;
    let site = cursor.number(1, u64::from(sites))?;
    cursor.word(b" ")?;
    let delivered = delivered(cursor)?;
    let units = units(alloc, cursor, sites)?;
    cursor.word(b"\n")?;
    let lines = lines(alloc, cursor)?;
    Ok(Entry {
        site: site as u32,
        delivered,
        units,
        lines,
    })
}

// The entries.
fn entries(alloc: Global, cursor: &mut Cursor, sites: u32) -> Result<Seq<Entry>, FileFault>
    ensures { IsReadAs (entries_at sites) cursor.old cursor.new result }
{
    let mut entries = Seq::new(alloc);
    'items: while cursor.begins_with(b't') {
        let next = entry(alloc, cursor, sites)?;
        entries.push(next)?;
    }
    Ok(entries)
}

// The program's text, with its length before it.
#[tactic(auto, unfolding(crate::specs::Reading::counted_text_at))]
fn counted_text(alloc: Global, cursor: &mut Cursor) -> Result<Seq<u8>, FileFault>
    ensures { IsReadAs counted_text_at cursor.old cursor.new result }
{
    let count = cursor.number(0, MOST_BYTES)?;
    cursor.word(b"\n")?;
    let bytes = cursor.bytes(count as usize)?;
    Ok(Seq::from_vec(Vec::from_slice(alloc, bytes)?))
}

// The first line and the program's text.
#[tactic(auto, unfolding(crate::specs::Reading::header_at))]
fn header(alloc: Global, cursor: &mut Cursor) -> Result<Header, FileFault>
    ensures read { IsReadAs (map_at header_of header_at) cursor.old cursor.new result }
{
    cursor.word(b"ozrun 1 ")?;
    let sites = cursor.number(1, MOST_SITES as u64)?;
    cursor.word(b" ")?;
    let steps = cursor.number(1, MOST_STEPS)?;
    cursor.word(b" ")?;
    let messages = cursor.number(0, MOST_MESSAGES)?;
    cursor.word(b" ")?;
    let text = counted_text(alloc, cursor)?;
    Ok(Header {
        sites: sites as u32,
        steps,
        messages,
        text,
    })
}

// The end line.
#[tactic(auto, unfolding(crate::specs::Reading::end_at))]
fn end(alloc: Global, cursor: &mut Cursor) -> Result<Line, FileFault>
    ensures { IsReadAs end_at cursor.old cursor.new result }
{
    cursor.word(b"end ")?;
    let bytes = cursor.line()?;
    Ok(Line::from_vec(Vec::from_slice(alloc, bytes)?)?)
}

// A saved run, behind which bytes may stand.
#[tactic(auto, unfolding(crate::specs::Reading::run_at, crate::specs::Reading::turns_at))]
fn run(alloc: Global, cursor: &mut Cursor) -> Result<RunFile, FileFault>
    ensures { IsReadAs run_at cursor.old cursor.new result }
{
    let header = header(alloc, cursor)?;
    cursor.word(b"\n")?;
    let entries = entries(alloc, cursor, header.sites)?;
    let end = end(alloc, cursor)?;
    Ok(RunFile::of_parts(header, entries, end))
}

// The saved run whose text all of the bytes are.
#[tactic(auto, unfolding(byte_fields::specs::Reading::whole_at))]
fn whole(alloc: Global, bytes: &[u8]) -> Result<RunFile, FileFault>
    ensures { IsReadAsWhole Memory run_at Bad bytes.now result }
{
    let mut cursor = Cursor::new(bytes);
    let run = run(alloc, &mut cursor)?;
    if cursor.len() != 0 {
        return Err(FileFault::Bad(cursor.place()));
    }
    Ok(run)
}

/// The saved run whose text the bytes are, or their first fault. It reads each byte once, and takes memory by the number of
/// bytes: the text, each line and the end line are copied once, and the units of a thread that follow one another take none.
pub fn read_run(alloc: Global, bytes: &[u8]) -> Result<RunFile, FileFault>
    // What is read is saved so.
    ensures saved { IfOk result (λ r. Saved r bytes.now) }
    // What is saved so is read, unless memory runs out.
    ensures only { (r : SavedRun) → Saved r bytes.now → (result ≡ Ok r) ⊎ (result ≡ Err Memory) }
    // A fault is the first one, unless memory runs out.
    ensures fault { IfErr result (λ f. (f ≡ Memory) ⊎ IsFirstFault bytes.now f) }
    // The first fault is answered, unless memory runs out.
    ensures first { (f : AFault) → IsFirstFault bytes.now f → (result ≡ Err f) ⊎ (result ≡ Err Memory) }
{
    whole(alloc, bytes)
}
