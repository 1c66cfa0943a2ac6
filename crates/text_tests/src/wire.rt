//! Messages as bytes in both forms: worked rows, each with what comes of it when one byte is another. The outcomes were worked
//! out from the format by another program.

ghost use Rattle.site_message.specs.Wire.{FitsWire};

use crate::wire_rows::{NO_KINDS, OTHER_TEXTS, OTHERS, ROWS};
use site_message::{Bundle, Msg, wire_fits};
use std::alloc::{AllocError, Global};
use std::test::Fail;
use tree_node::{CodeId, ThreadName, VarName, Vars};
use wire_form::{Bytes, WireFault, decode, encode, encode_1, fits_words};

fn digit(byte: u8) -> u8 {
    match byte {
        b'0'..=b'9' => byte - b'0',
        b'a'..=b'f' => byte - b'a' + 10,
        _ => 0,
    }
}

// The bytes that pairs of hexadecimal digits stand for, with blanks among them.
fn bytes_of(alloc: Global, text: &str) -> Result<Vec<u8>, AllocError> {
    let mut bytes = Vec::new(alloc);
    let mut high = None;
    for byte in text.as_bytes() {
        if *byte == b' ' {
            continue;
        }
        match high {
            None => high = Some(digit(*byte)),
            Some(value) => {
                bytes.push((value << 4) | digit(*byte))?;
                high = None;
            }
        }
    }
    Ok(bytes)
}

// A message as its bytes in form 2, and in form 1 where its integers have 64 bits.
#[derive(Drop)]
struct Spellings {
    two: Bytes,
    one: Option<Bytes>,
}

fn spelled(alloc: Global, msg: &Msg) -> Result<Spellings, AllocError>
    requires { FitsWire msg.now }
{
    let two = encode(alloc, msg)?;
    let one = if fits_words(msg) {
        Some(encode_1(alloc, msg)?)
    } else {
        None
    };
    Ok(Spellings { two, one })
}

// The spellings of the message that bytes spell, or their fault. No other function owns a message that was read: each way
// out of one that does takes a message apart, which is dear to prove.
fn read(alloc: Global, bytes: &[u8]) -> Result<Result<Spellings, WireFault>, AllocError> {
    match decode(alloc, bytes) {
        Ok(msg) => {
            let written = spelled(alloc, &msg);
            drop(msg);
            Ok(Ok(written?))
        }
        Err(fault) => Ok(Err(fault)),
    }
}

// Whether bytes are one of the two spellings.
fn is_either(spellings: &Spellings, bytes: &[u8]) -> bool {
    spellings.two.as_slice() == bytes
        || match &spellings.one {
            Some(one) => one.as_slice() == bytes,
            None => false,
        }
}

// The fault of bytes, none where they spell a message whose spelling they are.
fn fault_of(alloc: Global, bytes: &[u8]) -> Result<Option<WireFault>, AllocError> {
    Ok(match read(alloc, bytes)? {
        Ok(spellings) => {
            if is_either(&spellings, bytes) {
                None
            } else {
                Some(WireFault::Memory)
            }
        }
        Err(fault) => Some(fault),
    })
}

fn other_of(row: usize, place: usize, value: u8) -> Option<WireFault> {
    for (at, first, last, set, fault) in OTHERS.as_slice() {
        if *at == row && *first <= place && place <= *last && *set == value {
            return Some(*fault);
        }
    }
    Some(WireFault::Memory)
}

fn outcome(letter: u8, row: usize, place: usize, value: u8, len: usize) -> Option<WireFault> {
    match letter {
        b'=' => None,
        b'K' => Some(WireFault::Kind(place)),
        b'R' => Some(WireFault::Range(place)),
        b'U' => Some(WireFault::Utf8(place)),
        b'S' => Some(WireFault::Short(len)),
        _ => other_of(row, place, value),
    }
}

// How many bytes of a message stand where the fault is not the one that it must be: Short before all stand, none where they
// do, Rest with one byte more. None where each is.
fn wrong_front(alloc: Global, text: &str) -> Result<Option<usize>, AllocError> {
    let mut bytes = bytes_of(alloc, text)?;
    let len = bytes.len();
    for front in 0..len {
        if fault_of(alloc, &bytes[..front])? != Some(WireFault::Short(front)) {
            return Ok(Some(front));
        }
    }
    if fault_of(alloc, &bytes)? != None {
        return Ok(Some(len));
    }
    bytes.push(0)?;
    let rest = fault_of(alloc, &bytes)? == Some(WireFault::Rest(len));
    Ok(if rest { None } else { Some(bytes.len()) })
}

#[test]
fn messages_have_these_bytes(rt: HostRuntime) -> Result<(), Fail> {
    for (text, _) in ROWS.as_slice() {
        assert_eq!(rt; wrong_front(rt.alloc(), text)?, None, "{text}");
    }
    Ok(())
}

// The fault of the bytes of a row, with this value at this place.
fn fault_with(
    alloc: Global,
    text: &str,
    place: usize,
    value: u8,
) -> Result<Option<WireFault>, AllocError> {
    let mut bytes = bytes_of(alloc, text)?;
    if place < bytes.len() {
        bytes[place] = value;
    }
    fault_of(alloc, &bytes)
}

// The place in a row at which this value does not come to what its letter says, or whose letter is missing. None where there is none.
fn wrong_place(
    alloc: Global,
    row: usize,
    text: &str,
    letters: &[u8],
    value: u8,
) -> Result<Option<usize>, AllocError> {
    let len = bytes_of(alloc, text)?.len();
    if letters.len() != len {
        return Ok(Some(len));
    }
    for (place, letter) in letters.iter().enumerate() {
        let want = outcome(*letter, row, place, value, len);
        if fault_with(alloc, text, place, value)? != want {
            return Ok(Some(place));
        }
    }
    Ok(None)
}

#[test]
fn other_bytes_have_these_faults(rt: HostRuntime) -> Result<(), Fail> {
    for (row, (text, outcomes)) in ROWS.as_slice().iter().enumerate() {
        for (letters, value) in outcomes.iter().zip([0x00u8, 0x41, 0xff]) {
            let wrong = wrong_place(rt.alloc(), row, text, letters.as_bytes(), value)?;
            assert_eq!(rt; wrong, None, "{text} with {value}");
        }
    }
    Ok(())
}

#[test]
fn other_texts_have_these_faults(rt: HostRuntime) -> Result<(), Fail> {
    for (text, fault) in OTHER_TEXTS.as_slice() {
        let bytes = bytes_of(rt.alloc(), text)?;
        assert_eq!(rt; fault_of(rt.alloc(), &bytes)?, Some(*fault), "{text}");
    }
    Ok(())
}

// Whether the first text spells a message whose spelling in form 2 is the second.
fn is_respelled(alloc: Global, text: &str, want: &str) -> Result<bool, AllocError> {
    let spelled = bytes_of(alloc, text)?;
    let want = bytes_of(alloc, want)?;
    Ok(match read(alloc, &spelled)? {
        Ok(spellings) => spellings.two.as_slice() == want.as_slice(),
        Err(_) => false,
    })
}

// The messages of the first nine rows are those of the next nine, in form 2.
#[test]
fn what_form_1_spells_form_2_spells(rt: HostRuntime) -> Result<(), Fail> {
    for row in 0..9 {
        let (one, two) = (ROWS[row].0, ROWS[row + 9].0);
        assert!(rt; is_respelled(rt.alloc(), one, two)?, "{two}");
    }
    Ok(())
}

#[test]
fn other_first_bytes_are_no_kinds(rt: HostRuntime) -> Result<(), Fail> {
    for kind in NO_KINDS.as_slice() {
        let mut bytes = bytes_of(rt.alloc(), "02 01 0000000000000002 03")?;
        if !bytes.is_empty() {
            bytes[0] = *kind;
        }
        assert_eq!(rt;
            fault_of(rt.alloc(), &bytes)?,
            Some(WireFault::Kind(0)),
            "{kind}"
        );
    }
    Ok(())
}

// An integer of 64 bits at either end, and those beside them.
static WORDS: [(&str, bool); 4] = [
    (
        "14 01 0000000000000002 01 00000000000000007fffffffffffffff 0000",
        true,
    ),
    (
        "14 01 0000000000000002 01 00000000000000008000000000000000 0000",
        false,
    ),
    (
        "14 01 0000000000000002 01 ffffffffffffffff8000000000000000 0000",
        true,
    ),
    (
        "14 01 0000000000000002 01 ffffffffffffffff7fffffffffffffff 0000",
        false,
    ),
];

// Whether the message of these bytes can be spelled in form 1, none where they spell none.
fn fits_form_1(alloc: Global, text: &str) -> Result<Option<bool>, AllocError> {
    let bytes = bytes_of(alloc, text)?;
    Ok(match read(alloc, &bytes)? {
        Ok(spellings) => Some(spellings.one.is_some()),
        Err(_) => None,
    })
}

#[test]
fn integers_of_64_bits_fit_form_1(rt: HostRuntime) -> Result<(), Fail> {
    for (text, fits) in WORDS.as_slice() {
        assert_eq!(rt; fits_form_1(rt.alloc(), text)?, Some(*fits), "{text}");
    }
    Ok(())
}

// A start of a thread with so many variables.
fn start_with(alloc: Global, count: usize) -> Result<Msg, AllocError> {
    let mut vars = Vec::new(alloc);
    for _ in 0..count {
        vars.push(VarName { site: 1, num: 2 })?;
    }
    Ok(Msg::Spawn {
        thread: ThreadName { site: 1, num: 0 },
        code: CodeId(0),
        vars: Vars::from_vec(vars)?,
        bundle: Bundle::new(),
    })
}

// The bytes of a message, none where it has no spelling.
fn spelled_len(alloc: Global, msg: &Msg) -> Result<Option<usize>, AllocError> {
    if wire_fits(msg) {
        Ok(Some(encode(alloc, msg)?.as_slice().len()))
    } else {
        Ok(None)
    }
}

// The bytes of a start of a thread with so many variables.
fn start_len(alloc: Global, count: usize) -> Result<Option<usize>, AllocError> {
    let msg = start_with(alloc, count)?;
    let len = spelled_len(alloc, &msg);
    drop(msg);
    len
}

#[test]
fn many_names_are_spelled(rt: HostRuntime) -> Result<(), Fail> {
    assert_eq!(rt; start_len(rt.alloc(), 1_000)?, Some(9_018));
    assert_eq!(rt; start_len(rt.alloc(), 70_000)?, None);
    Ok(())
}

// The count of 65,535 is followed by 70,000 names: those past it are read as a bundle of 256 equations, whose first name
// has the site 0.
#[test]
fn more_names_than_a_count_can_say(rt: HostRuntime) -> Result<(), Fail> {
    let mut bytes = bytes_of(rt.alloc(), "01 01 0000000000000000 00000000 ffff")?;
    for _ in 0..70_000 {
        bytes.extend_from_slice(&[1, 0, 0, 0, 0, 0, 0, 0, 2])?;
    }
    assert_eq!(rt;
        fault_of(rt.alloc(), &bytes)?,
        Some(WireFault::Range(589_833))
    );
    Ok(())
}
