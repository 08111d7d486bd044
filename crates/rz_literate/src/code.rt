//! The text of a file's code lines.

ghost use Rattle.std.specs.Prelude.{◌≡◌, ◌++◌, ◌<◌, Err, IfOk, IfErr, OnOk, None, length, if◌then◌else◌};
ghost use Rattle.std.specs.String.{string_bytes};
ghost use Rattle.std.specs.Str.{IsUtf8};
ghost use Rattle.std.specs.Str.Lossy.{utf8_valid_len};
ghost use Rattle.rz_literate.specs.declared.fault.TextFault.TheVariants.{NotText};
ghost use Rattle.rz_literate.specs.Code.{full_lines, blank_byte, blank, is_code_line, fence_after, code_lines, code_of, KeepsLineEnds, ChangesToSpaces, IsFaultOf};

use crate::fault::TextFault;
use crate::fence::{Fence, closes, opening};
use std::alloc::{AllocError, Global};

/// What stands in the place of a byte outside the code: a space, or the byte where it ends a line.
fn blank_char(byte: u8) -> char
    ensures value { result ≡ blank_byte byte }
    ensures ascii { result < 128 }
{
    match byte {
        b'\n' => '\n',
        b'\r' => '\r',
        _ => ' ',
    }
}

/// Writes a blank line in the place of this one.
fn push_blank(out: &mut String, line: &str) -> Result<(), AllocError>
    ensures { OnOk result (string_bytes out.new ≡ string_bytes out.old ++ blank line.now) }
{
    for byte in line.as_bytes() {
        out.push(blank_char(*byte))?;
    }
    Ok(())
}

/// Writes a line, blank where it is no code, and answers the fence that is open after it.
fn push_line(
    out: &mut String,
    inside: Option<Fence>,
    line: &str,
) -> Result<Option<Fence>, AllocError>
    ensures written { OnOk result (string_bytes out.new ≡ string_bytes out.old ++
        (if is_code_line inside line.now then line.now else blank line.now)) }
    ensures after { IfOk result (λ fence. fence ≡ fence_after inside line.now) }
{
    match inside {
        None => {
            push_blank(out, line)?;
            Ok(opening(line.as_bytes()))
        }
        Some(fence) if closes(fence, line.as_bytes()) => {
            push_blank(out, line)?;
            Ok(None)
        }
        Some(fence) => {
            if fence.is_code {
                out.push_str(line)?;
            } else {
                push_blank(out, line)?;
            }
            Ok(inside)
        }
    }
}

/// The code lines of a Markdown text, and blank lines in the place of the others.
fn code_lines(alloc: Global, text: &str) -> Result<String, AllocError>
    ensures { IfOk result (λ out. string_bytes out ≡ code_lines None (full_lines text.now)) }
{
    let mut out = String::with_capacity(alloc, text.len())?;
    let mut inside = None;
    for line in text.split_inclusive('\n') {
        inside = push_line(&mut out, inside, line)?;
    }
    Ok(out)
}

/// The text that is read of a file: its code lines where the name says that it is a Markdown file, and else all of it.
pub fn code_of(alloc: Global, name: &str, bytes: &[u8]) -> Result<String, TextFault>
    ensures code { IfOk result (λ text. string_bytes text ≡ code_of name.now bytes.now) }

    // No byte moves, no line end changes, and what changes becomes a space.
    ensures length { IfOk result (λ text. length (string_bytes text) ≡ length bytes.now) }
    ensures line_ends { IfOk result (λ text. KeepsLineEnds bytes.now (string_bytes text)) }
    ensures others { IfOk result (λ text. ChangesToSpaces bytes.now (string_bytes text)) }

    // Bytes that are no UTF-8 are refused as such, at the end of their longest front that is, and no others are.
    ensures is_text { OnOk result (IsUtf8 bytes.now) }
    ensures fault { IfErr result (IsFaultOf bytes.now) }
    ensures not_text { ¬ (IsUtf8 bytes.now) → result ≡ Err (NotText (utf8_valid_len bytes.now)) }
{
    let text = match std::str::from_utf8(bytes) {
        Ok(text) => text,
        Err(error) => return Err(TextFault::NotText(error.valid_up_to() as u64)),
    };
    if name.ends_with(".md") {
        Ok(code_lines(alloc, text)?)
    } else {
        Ok(String::from_str(alloc, text)?)
    }
}
