//! Names, codes and texts, read.

ghost use Rattle.std.specs.Prelude.{◌≡◌};
ghost use Rattle.std.specs.Str.{is_utf8};
ghost use Rattle.wire_reader.specs.Reading.{IsReadAs, name_at, var_name_at, cell_name_at, stationary_name_at, port_name_at, proc_name_at, thread_name_at, code_at, text_at, feature_at};

use crate::fault::WireFault;
use crate::form::Form;
use crate::numbers::{byte, byte_within, bytes, integer, number_32, number_64};
use byte_fields::Cursor;
use std::alloc::Global;
use tree_node::{
    CellName, CodeId, Feature, Integer, MOST_SITES, PortName, ProcName, Shared, Text, ThreadName,
    VarName,
};

// A site and a number.
#[tactic(auto, unfolding(crate::specs::Reading::name_at))]
fn name(cursor: &mut Cursor) -> Result<(u32, u64), WireFault>
    ensures { IsReadAs name_at cursor.old cursor.new result }
{
    let site = byte_within(cursor, 1, MOST_SITES as u8)?;
    let num = number_64(cursor)?;
    Ok((site as u32, num))
}

/// A variable's name.
#[tactic(auto, unfolding(crate::specs::Reading::var_name_at))]
pub(crate) fn var_name(cursor: &mut Cursor) -> Result<VarName, WireFault>
    ensures { IsReadAs var_name_at cursor.old cursor.new result }
{
    let (site, num) = name(cursor)?;
    Ok(VarName { site, num })
}

/// A mobile cell's name.
#[tactic(auto, unfolding(crate::specs::Reading::cell_name_at))]
pub(crate) fn cell_name(cursor: &mut Cursor) -> Result<CellName, WireFault>
    ensures { IsReadAs cell_name_at cursor.old cursor.new result }
{
    let (site, num) = name(cursor)?;
    Ok(CellName { site, num, at: 0 })
}

/// A stationary cell's name, with its home.
#[tactic(auto, unfolding(crate::specs::Reading::stationary_name_at))]
pub(crate) fn stationary_name(cursor: &mut Cursor) -> Result<CellName, WireFault>
    ensures { IsReadAs stationary_name_at cursor.old cursor.new result }
{
    let (site, num) = name(cursor)?;
    let at = byte_within(cursor, 1, MOST_SITES as u8)?;
    Ok(CellName {
        site,
        num,
        at: at as u32,
    })
}

/// A port's name.
#[tactic(auto, unfolding(crate::specs::Reading::port_name_at))]
pub(crate) fn port_name(cursor: &mut Cursor) -> Result<PortName, WireFault>
    ensures { IsReadAs port_name_at cursor.old cursor.new result }
{
    let (site, num) = name(cursor)?;
    Ok(PortName { site, num })
}

/// A procedure's name.
#[tactic(auto, unfolding(crate::specs::Reading::proc_name_at))]
pub(crate) fn proc_name(cursor: &mut Cursor) -> Result<ProcName, WireFault>
    ensures { IsReadAs proc_name_at cursor.old cursor.new result }
{
    let (site, num) = name(cursor)?;
    Ok(ProcName { site, num })
}

/// A thread's name.
#[tactic(auto, unfolding(crate::specs::Reading::thread_name_at))]
pub(crate) fn thread_name(cursor: &mut Cursor) -> Result<ThreadName, WireFault>
    ensures { IsReadAs thread_name_at cursor.old cursor.new result }
{
    let (site, num) = name(cursor)?;
    Ok(ThreadName { site, num })
}

/// The number of a statement.
#[tactic(auto, unfolding(crate::specs::Reading::code_at))]
pub(crate) fn code(cursor: &mut Cursor) -> Result<CodeId, WireFault>
    ensures { IsReadAs code_at cursor.old cursor.new result }
{
    let number = number_32(cursor)?;
    Ok(CodeId(number))
}

// Whether bytes are UTF-8.
#[tactic(auto, using(crate::proofs::TextLaws::same_test))]
fn is_text(bytes: &[u8]) -> bool
    ensures { result ≡ is_utf8 bytes.now }
{
    str::from_utf8(bytes).is_ok()
}

/// A text.
#[tactic(auto, unfolding(crate::specs::Reading::text_at, crate::specs::Reading::short_bytes_at))]
pub(crate) fn text(alloc: Global, cursor: &mut Cursor) -> Result<Text, WireFault>
    ensures { IsReadAs text_at cursor.old cursor.new result }
{
    let len = byte(cursor)?;
    let at = cursor.place();
    let bytes = bytes(cursor, len as usize)?;
    if !is_text(bytes) {
        return Err(WireFault::Utf8(at));
    }
    Ok(Shared::from_vec(Vec::from_slice(alloc, bytes)?)?)
}

/// A feature.
#[tactic(auto, unfolding(crate::specs::Reading::feature_at, crate::specs::Reading::key_at))]
pub(crate) fn feature(alloc: Global, form: Form, cursor: &mut Cursor) -> Result<Feature, WireFault>
    ensures { IsReadAs (feature_at form) cursor.old cursor.new result }
{
    let at = cursor.place();
    match byte(cursor)? {
        0 => Ok(Feature::Int(Integer::new(integer(cursor, form)?))),
        1 => Ok(Feature::Atom(text(alloc, cursor)?)),
        _ => Err(WireFault::Kind(at)),
    }
}
