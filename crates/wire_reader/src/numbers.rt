//! Bytes and numbers of bytes, read.

ghost use Rattle.std.specs.Prelude.{◌≡◌, MatchResult, Ok, Err};
ghost use Rattle.std.specs.Int.{w16, w32, w64, w128};
ghost use Rattle.byte_fields.specs.Reading.{bytes_at};
ghost use Rattle.wire_reader.specs.declared.fault.WireFault.TheVariants.{Short};
ghost use Rattle.wire_reader.specs.Reading.{IsReadAs, byte_at, number_at, signed_at, integer_at, byte_within_at};

use crate::fault::WireFault;
use crate::form::Form;
use byte_fields::Cursor;

/// The next bytes.
#[tactic(auto, unfolding(byte_fields::specs::Reading::bytes_at))]
pub(crate) fn bytes<'a>(cursor: &mut Cursor<'a>, count: usize) -> Result<&'a [u8], WireFault>
    ensures { MatchResult result (λ s. bytes_at Short count cursor.old ≡ Ok (s.now, cursor.new)) (λ f. bytes_at Short count cursor.old ≡ Err f) }
{
    let end = cursor.end();
    cursor.next_bytes(count).ok_or(WireFault::Short(end))
}

/// The next byte.
#[tactic(auto, using(crate::proofs::BaseLaws::byte_left, crate::proofs::BaseLaws::byte_cut))]
pub(crate) fn byte(cursor: &mut Cursor) -> Result<u8, WireFault>
    ensures { IsReadAs byte_at cursor.old cursor.new result }
{
    let at = cursor.place();
    cursor.next_byte().ok_or(WireFault::Short(at))
}

/// A byte from one number to another.
#[tactic(auto, unfolding(crate::specs::Reading::byte_within_at))]
pub(crate) fn byte_within(cursor: &mut Cursor, least: u8, most: u8) -> Result<u8, WireFault>
    ensures { IsReadAs (byte_within_at least most) cursor.old cursor.new result }
{
    let at = cursor.place();
    let byte = byte(cursor)?;
    if byte < least || most < byte {
        return Err(WireFault::Range(at));
    }
    Ok(byte)
}

/// A number of two bytes.
#[tactic(auto, unfolding(crate::specs::Reading::number_at, byte_fields::specs::Reading::bytes_at))]
pub(crate) fn number_16(cursor: &mut Cursor) -> Result<u16, WireFault>
    ensures { IsReadAs (number_at w16) cursor.old cursor.new result }
{
    let bytes = bytes(cursor, 2)?;
    Ok(u16::from_be_bytes([bytes[0], bytes[1]]))
}

/// A number of four bytes.
#[tactic(auto, unfolding(crate::specs::Reading::number_at, byte_fields::specs::Reading::bytes_at))]
pub(crate) fn number_32(cursor: &mut Cursor) -> Result<u32, WireFault>
    ensures { IsReadAs (number_at w32) cursor.old cursor.new result }
{
    let bytes = bytes(cursor, 4)?;
    Ok(u32::from_be_bytes([bytes[0], bytes[1], bytes[2], bytes[3]]))
}

/// A number of eight bytes.
#[tactic(auto, unfolding(crate::specs::Reading::number_at, byte_fields::specs::Reading::bytes_at))]
pub(crate) fn number_64(cursor: &mut Cursor) -> Result<u64, WireFault>
    ensures { IsReadAs (number_at w64) cursor.old cursor.new result }
{
    let bytes = bytes(cursor, 8)?;
    Ok(u64::from_be_bytes([
        bytes[0], bytes[1], bytes[2], bytes[3], bytes[4], bytes[5], bytes[6], bytes[7],
    ]))
}

// An integer of eight bytes.
#[tactic(auto, unfolding(crate::specs::Reading::signed_at, byte_fields::specs::Reading::bytes_at))]
fn integer_64(cursor: &mut Cursor) -> Result<i64, WireFault>
    ensures { IsReadAs (signed_at w64) cursor.old cursor.new result }
{
    let bytes = bytes(cursor, 8)?;
    Ok(i64::from_be_bytes([
        bytes[0], bytes[1], bytes[2], bytes[3], bytes[4], bytes[5], bytes[6], bytes[7],
    ]))
}

// An integer of sixteen bytes.
#[tactic(auto, unfolding(crate::specs::Reading::signed_at, byte_fields::specs::Reading::bytes_at))]
fn integer_128(cursor: &mut Cursor) -> Result<i128, WireFault>
    ensures { IsReadAs (signed_at w128) cursor.old cursor.new result }
{
    let bytes = bytes(cursor, 16)?;
    Ok(i128::from_be_bytes([
        bytes[0], bytes[1], bytes[2], bytes[3], bytes[4], bytes[5], bytes[6], bytes[7], bytes[8],
        bytes[9], bytes[10], bytes[11], bytes[12], bytes[13], bytes[14], bytes[15],
    ]))
}

/// An integer of the form.
pub(crate) fn integer(cursor: &mut Cursor, form: Form) -> Result<i128, WireFault>
    ensures { IsReadAs (integer_at form) cursor.old cursor.new result }
{
    match form {
        Form::One => Ok(i128::from(integer_64(cursor)?)),
        Form::Two => integer_128(cursor),
    }
}
