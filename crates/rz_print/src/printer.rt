//! The words of a form, one after another.

ghost use Rattle.std.specs.Prelude.{◌≡◌, ◌≢◌, List, [], ◌∷◌, ◌++◌, reverse, string_bytes, slice_get, IfOk, OnOk};
ghost use Rattle.rz_print.specs.Layout.{term};
ghost use Rattle.rz_print.specs.Words.{opened, opened_form, opened_shape, Lost, HasWords, IsTextOf};
ghost use Rattle.rz_print.specs.Printing.{Adds, pieces_after, words_of};
ghost use Rattle.rz_print.specs.Meaning.{IsReadable, ReadsBack};

use crate::layout::{Piece, domain_pieces, placed, shape_pieces};
use crate::level::Level;
use crate::writer::{Writer, spelling};
use rz_lex::Tok;
use rz_rules::OutOfMemory;
use rz_syntax::{Form, Raw, Shape};
use std::alloc::Global;

// The pieces that are yet to be written, the next one last.
type Stack = Vec<Piece>;

// Puts pieces before those that are yet to be written.
fn push_all(stack: &mut Stack, pieces: &[Piece]) -> Result<(), OutOfMemory>
    ensures { OnOk result (stack.new.items ≡ stack.old.items ++ reverse pieces.now) }
{
    for count in 0..pieces.len() {
        stack.push(pieces[pieces.len() - 1 - count])?;
    }
    Ok(())
}

// Writes a form that is a name, and takes any other apart.
fn write_form(
    alloc: Global,
    form: &Form,
    level: Level,
    stack: &mut Stack,
    writer: &mut Writer,
) -> Result<(), OutOfMemory>
    ensures stack { OnOk result
        (stack.new.items ≡ pieces_after (opened_form level form.now) stack.old.items) }
    ensures writer { OnOk result
        (Adds writer.old writer.new (words_of (opened_form level form.now))) }
{
    match form {
        Form::Named { name } => writer.write(Tok::Name, name.as_str()),
        _ => {
            let pieces = placed(alloc, level, form)?;
            push_all(stack, pieces.as_slice())
        }
    }
}

// Writes a pattern that is a name, and takes any other apart.
fn write_shape(
    alloc: Global,
    shape: &Shape,
    stack: &mut Stack,
    writer: &mut Writer,
) -> Result<(), OutOfMemory>
    ensures stack { OnOk result
        (stack.new.items ≡ pieces_after (opened_shape shape.now) stack.old.items) }
    ensures writer { OnOk result
        (Adds writer.old writer.new (words_of (opened_shape shape.now))) }
{
    match shape {
        Shape::Named { name } => writer.write(Tok::Name, name.as_str()),
        _ => {
            let pieces = shape_pieces(alloc, shape)?;
            push_all(stack, pieces.as_slice())
        }
    }
}

// Writes a piece, or takes it apart.
fn write_piece(
    alloc: Global,
    shapes: &[Shape],
    forms: &[Form],
    piece: Piece,
    stack: &mut Stack,
    writer: &mut Writer,
) -> Result<(), OutOfMemory>
    requires { opened shapes.now forms.now piece ≢ Lost }
    ensures stack { OnOk result (stack.new.items
        ≡ pieces_after (opened shapes.now forms.now piece) stack.old.items) }
    ensures writer { OnOk result (Adds writer.old writer.new
        (words_of (opened shapes.now forms.now piece))) }
{
    match piece {
        Piece::Mark { kind } => writer.write(kind, spelling(kind)),
        Piece::Part { raw, level } => {
            write_form(alloc, &forms[raw.form as usize], level, stack, writer)
        }
        Piece::Pattern { pat } => write_shape(alloc, &shapes[pat.shape as usize], stack, writer),
        Piece::Domain { bind } => {
            let shape = &shapes[bind.pat.shape as usize];
            let pieces = domain_pieces(alloc, shape, bind)?;
            push_all(stack, pieces.as_slice())
        }
    }
}

// The text of the words of a form.
fn write(alloc: Global, shapes: &[Shape], forms: &[Form], raw: Raw) -> Result<String, OutOfMemory>
    requires { HasWords shapes.now forms.now (term raw ∷ []) }
    ensures { IfOk result (λ text. IsTextOf shapes.now forms.now raw (string_bytes text)) }
{
    let mut writer = Writer::new(alloc);
    let mut stack = Vec::new(alloc);
    let level = Level::Term;
    stack.push(Piece::Part { raw, level })?;
    // No text has as many words.
    for _ in 0..u64::MAX {
        let Some(piece) = stack.pop() else {
            return Ok(writer.into_text());
        };
        write_piece(alloc, shapes, forms, piece, &mut stack, &mut writer)?;
    }
    Err(OutOfMemory)
}

/// The text of a form of these tables. Some text must be read as the form, but for its places and
/// numbers: any form that `rz_syntax::parse` answers has one.
///
/// The text has the first spelling of each token in the table of tokens, a bracket only where the
/// grammar asks for one, and spaces where a reader expects them.
pub fn print(
    alloc: Global,
    shapes: &[Shape],
    forms: &[Form],
    raw: Raw,
) -> Result<String, OutOfMemory>
    requires { IsReadable shapes.now forms.now raw }
    // The text is that of the form's words: each part in brackets where its level asks for them.
    ensures text { IfOk result (λ text. IsTextOf shapes.now forms.now raw (string_bytes text)) }
    // The tokens of the text, read as a term, give the same form, but for its places and numbers.
    ensures reads_back { IfOk result (λ text. ReadsBack shapes.now forms.now raw (string_bytes text)) }
{
    write(alloc, shapes, forms, raw)
}
