//! What tests compare of what was read, as a text. A part is told by its number in its table and its
//! place.

use rz_syntax::{Bind, Command, Commands, Form, Raw, RawFace, RawSequent, Shape, Word};
use std::alloc::AllocError;
use std::fmt::Write;

fn show_raw(out: &mut String, raw: Raw) -> Result<(), AllocError> {
    write!(out, "{}.{} ", raw.form, raw.at)
}

fn show_raws(out: &mut String, word: &str, raws: &[Raw]) -> Result<(), AllocError> {
    write!(out, "{word} ")?;
    for raw in raws {
        show_raw(out, *raw)?;
    }
    Ok(())
}

fn show_faces(out: &mut String, faces: &[RawFace]) -> Result<(), AllocError> {
    for face in faces {
        let tope = face.tope;
        write!(out, "{}.{}|", tope.form, tope.at)?;
        show_raw(out, face.term)?;
    }
    Ok(())
}

fn show_binds(out: &mut String, binds: &[Bind]) -> Result<(), AllocError> {
    for bind in binds {
        write!(out, "{}.{}", bind.pat.shape, bind.pat.at)?;
        if let Some(of) = bind.of {
            write!(out, ":{}.{}", of.form, of.at)?;
        }
        if let Some(tope) = bind.tope {
            write!(out, "|{}.{}", tope.form, tope.at)?;
        }
        write!(out, " ")?;
    }
    Ok(())
}

fn show_words(out: &mut String, words: &[Word]) -> Result<(), AllocError> {
    for word in words {
        write!(out, "{}.{} ", word.name.as_str(), word.at)?;
    }
    Ok(())
}

fn show_title(out: &mut String, name: &Option<Word>) -> Result<(), AllocError> {
    match name {
        Some(word) => write!(out, "{}.{} ", word.name.as_str(), word.at),
        None => Ok(()),
    }
}

fn show_shape(out: &mut String, shape: &Shape) -> Result<(), AllocError> {
    match shape {
        Shape::Named { name } => write!(out, "{} ", name.as_str()),
        Shape::Blank => write!(out, "_ "),
        Shape::Pair { left, right } => {
            write!(
                out,
                "({}.{},{}.{}) ",
                left.shape, left.at, right.shape, right.at
            )
        }
    }
}

fn show_form(out: &mut String, form: &Form) -> Result<(), AllocError> {
    match form {
        Form::Named { name } => write!(out, "{} ", name.as_str()),
        Form::ReflAt { term, of: None } => show_raws(out, "refl-at", &[*term]),
        Form::ReflAt { term, of: Some(of) } => show_raws(out, "refl-at", &[*term, *of]),
        Form::IdJ { parts } => show_raws(out, "id-j", parts.as_slice()),
        Form::Pair { left, right } => show_raws(out, "pair", &[*left, *right]),
        Form::App { head, args } => {
            show_raws(out, "app", &[*head])?;
            for arg in args.as_slice() {
                show_raw(out, *arg)?;
            }
            Ok(())
        }
        Form::First { arg } => show_raws(out, "first", &[*arg]),
        Form::Second { arg } => show_raws(out, "second", &[*arg]),
        Form::Product { left, right } => show_raws(out, "product", &[*left, *right]),
        Form::SamePoint { left, right } => show_raws(out, "same-point", &[*left, *right]),
        Form::AtMost { left, right } => show_raws(out, "at-most", &[*left, *right]),
        Form::Equal { left, right } => show_raws(out, "equal", &[*left, *right]),
        Form::EqualAt { of, left, right } => show_raws(out, "equal-at", &[*of, *left, *right]),
        Form::And { left, right } => show_raws(out, "and", &[*left, *right]),
        Form::Or { left, right } => show_raws(out, "or", &[*left, *right]),
        Form::As { term, of } => show_raws(out, "as", &[*term, *of]),
        Form::RecOr { faces } => {
            write!(out, "rec-or ")?;
            show_faces(out, faces.as_slice())
        }
        Form::Restrict { body, faces } => {
            show_raws(out, "restrict", &[*body])?;
            show_faces(out, faces.as_slice())
        }
        Form::Arrow { bind, body } => {
            write!(out, "arrow ")?;
            show_binds(out, &[*bind])?;
            show_raw(out, *body)
        }
        Form::Sigma { bind, body } => {
            write!(out, "sigma ")?;
            show_binds(out, &[*bind])?;
            show_raw(out, *body)
        }
        Form::Lambda { binds, body } => {
            write!(out, "lambda ")?;
            show_binds(out, binds.as_slice())?;
            show_raw(out, *body)
        }
        leaf => write!(out, "{leaf:?} "),
    }
}

fn show_command(out: &mut String, command: &Command) -> Result<(), AllocError> {
    match command {
        Command::Def {
            first,
            count,
            name,
            uses,
            binds,
            of,
            body,
        } => {
            write!(
                out,
                "def {first} {count} {}.{} ",
                name.name.as_str(),
                name.at
            )?;
            show_words(out, uses.as_slice())?;
            show_binds(out, binds.as_slice())?;
            show_raw(out, *of)?;
            show_raw(out, *body)
        }
        Command::Post {
            first,
            count,
            name,
            uses,
            binds,
            of,
        } => {
            write!(
                out,
                "postulate {first} {count} {}.{} ",
                name.name.as_str(),
                name.at
            )?;
            show_words(out, uses.as_slice())?;
            show_binds(out, binds.as_slice())?;
            show_raw(out, *of)
        }
        Command::Check {
            first,
            count,
            term,
            of,
        } => {
            write!(out, "check {first} {count} ")?;
            show_raw(out, *term)?;
            show_raw(out, *of)
        }
        Command::Compute { first, count, term } => {
            write!(out, "compute {first} {count} ")?;
            show_raw(out, *term)
        }
        Command::Section { first, count, name } => {
            write!(out, "section {first} {count} ")?;
            show_title(out, name)
        }
        Command::End { first, count, name } => {
            write!(out, "end {first} {count} ")?;
            show_title(out, name)
        }
        Command::Assume {
            first,
            count,
            names,
            of,
        } => {
            write!(out, "assume {first} {count} ")?;
            show_words(out, names.as_slice())?;
            show_raw(out, *of)
        }
        Command::Option { first, count } => write!(out, "option {first} {count} "),
    }
}

fn show_tables(out: &mut String, shapes: &[Shape], forms: &[Form]) -> Result<(), AllocError> {
    for shape in shapes {
        show_shape(out, shape)?;
    }
    write!(out, "; ")?;
    for form in forms {
        show_form(out, form)?;
    }
    write!(out, "; ")
}

/// Patterns; forms; commands.
pub fn show_commands(out: &mut String, commands: &Commands) -> Result<(), AllocError> {
    show_tables(out, commands.shapes.as_slice(), commands.forms.as_slice())?;
    for command in commands.list.as_slice() {
        show_command(out, command)?;
    }
    Ok(())
}

/// Patterns; forms; names with their cubes; hypotheses; the goal.
pub fn show_sequent(out: &mut String, sequent: &RawSequent) -> Result<(), AllocError> {
    show_tables(out, sequent.shapes.as_slice(), sequent.forms.as_slice())?;
    for entry in sequent.names.as_slice() {
        show_words(out, entry.names.as_slice())?;
        show_raws(out, ":", &[entry.cube])?;
    }
    show_raws(out, ";", sequent.hypotheses.as_slice())?;
    show_raws(out, ";", &[sequent.goal])
}
