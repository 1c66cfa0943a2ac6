//! The lines of the text, and the text.

ghost use Rattle.std.specs.Prelude.{◌≡◌, ◌≤◌, IfOk, length, string_bytes};
ghost use Rattle.large_run.specs.Text.{GainsLine, first_lines, large_text, stream_line, text_of};

use std::alloc::{AllocError, Global};

// One more line, and its newline.
fn push_line(text: &mut String, line: &str) -> Result<(), AllocError>
    ensures { IfOk result (λ _. GainsLine (string_bytes text.old) line.now (string_bytes text.new)) }
{
    text.push_str(line)?;
    text.push_str("\n")
}

// The lines before those of the streams.
fn first_lines(alloc: Global) -> Result<String, AllocError>
    ensures { IfOk result (λ text. string_bytes text ≡ text_of first_lines) }
{
    let mut text = String::new(alloc);
    push_line(&mut text, "local C E Z One J P Q R in Z = 0 One = 1 J = 10")?;
    push_line(&mut text, "{NewCell Z C} {NewCell Z E}")?;
    push_line(
        &mut text,
        "P = proc {$ K J S} local B in B = J =< Z if B then S = nil else local O M K1 J1 T in {Exchange C O M} M = O + One K1 = K + One J1 = J - One S = K|T {P K1 J1 T} end end end end",
    )?;
    push_line(
        &mut text,
        "Q = proc {$ S A D} case S of H|T then local F in F = A + H {Q T F D} end else D = A end end",
    )?;
    push_line(
        &mut text,
        "R = proc {$ D} local O M in {Exchange E O M} thread M = O + D end end end",
    )?;
    Ok(text)
}

// The line of the stream from k on.
fn stream_line(alloc: Global, k: u32) -> Result<String, AllocError>
    requires { k ≤ 1000 }
    ensures { IfOk result (λ line. string_bytes line ≡ stream_line k) }
{
    let number = format!(in alloc; "{k}")?;
    let next = format!(in alloc; "{}", k + 1)?;
    let mut line = String::from_str(alloc, "local K S D in K = ")?;
    line.push_str(&number)?;
    line.push_str(" thread at ")?;
    line.push_str(&number)?;
    line.push_str(" {P K J S} end thread at ")?;
    line.push_str(&next)?;
    line.push_str(" {Q S Z D} end {R D} end")?;
    Ok(line)
}

/// The text of the run of this size, at most 1,000: what `oz gen NUMBER` runs.
pub fn large_text(alloc: Global, size: u32) -> Result<String, AllocError>
    requires { size ≤ 1000 }
    ensures text { IfOk result (λ text. string_bytes text ≡ large_text size) }
    ensures short { IfOk result (λ text. length (string_bytes text) ≤ 1048576) }
{
    let mut text = first_lines(alloc)?;
    for k in 0..size {
        let line = stream_line(alloc, k + 1)?;
        push_line(&mut text, &line)?;
    }
    push_line(
        &mut text,
        "local T V in {Exchange E T T} {Browse T} {Exchange C V V} {Browse V} end end",
    )?;
    Ok(text)
}
