//! What the text of a form is made of: marks, and its parts, each at a level of the grammar.

ghost use Rattle.std.specs.Prelude.{◌≡◌, [], ◌∷◌, ◌++◌, IfOk, OnOk};
ghost use Rattle.rz_print.specs.Layout.{term, leaf_kind, argument_pieces, more_terms, listed_terms, face_pieces, more_faces, listed_faces, bind_end, bind_pieces, parameter_pieces, domain_pieces, shape_pieces, between, under_binds, with_faces, induction_pieces, application_pieces, reflexivity_pieces, equality_pieces, inner_layout, joined_layout, layout, placed};

use crate::level::{Level, home, rank};
use rz_lex::Tok;
use rz_rules::{OutOfMemory, Values};
use rz_syntax::{Bind, Form, Pat, Raw, RawFace, Shape};
use std::alloc::Global;

/// A piece of a text.
#[derive(Clone, Copy, Debug, PartialEq, Eq)]
pub enum Piece {
    /// A token that the table of tokens spells.
    Mark { kind: Tok },
    /// A form, at a level of the grammar.
    Part { raw: Raw, level: Level },
    /// A pattern.
    Pattern { pat: Pat },
    /// What stands before the arrow of a function type: a type alone where the binder has neither
    /// a name nor a tope.
    Domain { bind: Bind },
}

type Pieces = Values<Piece>;

fn mark(kind: Tok) -> Piece
    ensures { result ≡ Piece.Mark kind }
{
    Piece::Mark { kind }
}

fn part(level: Level, raw: Raw) -> Piece
    ensures { result ≡ Piece.Part raw level }
{
    Piece::Part { raw, level }
}

fn term(raw: Raw) -> Piece
    ensures { result ≡ term raw }
{
    part(Level::Term, raw)
}

// The token of a form without parts.
fn leaf_kind(form: &Form) -> Option<Tok>
    ensures { result ≡ leaf_kind form.now }
{
    match form {
        Form::Universe => Some(Tok::Universe),
        Form::CubeSort => Some(Tok::CubeSort),
        Form::TopeSort => Some(Tok::TopeSort),
        Form::CubeOne => Some(Tok::CubeOne),
        Form::CubeTwo => Some(Tok::CubeTwo),
        Form::Star => Some(Tok::Star),
        Form::EndZero => Some(Tok::EndZero),
        Form::EndOne => Some(Tok::EndOne),
        Form::Top => Some(Tok::Top),
        Form::Bottom => Some(Tok::Bottom),
        Form::UnitType => Some(Tok::UnitType),
        Form::UnitTerm => Some(Tok::UnitTerm),
        Form::RecBot => Some(Tok::RecBot),
        Form::Refl => Some(Tok::Refl),
        _ => None,
    }
}

// The forms at a level, one after another.
fn push_arguments(pieces: &mut Pieces, args: &[Raw]) -> Result<(), OutOfMemory>
    ensures { OnOk result (pieces.new ≡ pieces.old ++ argument_pieces args.now) }
{
    for arg in args {
        pieces.push(part(Level::Atom, *arg))?;
    }
    Ok(())
}

// The terms, each behind a comma.
fn push_more_terms(pieces: &mut Pieces, terms: &[Raw]) -> Result<(), OutOfMemory>
    ensures { OnOk result (pieces.new ≡ pieces.old ++ more_terms terms.now) }
{
    for raw in terms {
        pieces.extend_from_slice(&[mark(Tok::Comma), term(*raw)])?;
    }
    Ok(())
}

// The terms, with commas between them.
fn push_terms(pieces: &mut Pieces, terms: &[Raw]) -> Result<(), OutOfMemory>
    ensures { OnOk result (pieces.new ≡ pieces.old ++ listed_terms terms.now) }
{
    match terms {
        [] => Ok(()),
        [first, others @ ..] => {
            pieces.push(term(*first))?;
            push_more_terms(pieces, others)
        }
    }
}

fn push_face(pieces: &mut Pieces, face: RawFace) -> Result<(), OutOfMemory>
    ensures { OnOk result (pieces.new ≡ pieces.old ++ face_pieces face) }
{
    let tope = part(Level::Disjunction, face.tope);
    pieces.extend_from_slice(&[tope, mark(Tok::MapsTo), term(face.term)])
}

// The faces, each behind a comma.
fn push_more_faces(pieces: &mut Pieces, faces: &[RawFace]) -> Result<(), OutOfMemory>
    ensures { OnOk result (pieces.new ≡ pieces.old ++ more_faces faces.now) }
{
    for face in faces {
        pieces.push(mark(Tok::Comma))?;
        push_face(pieces, *face)?;
    }
    Ok(())
}

// The faces, with commas between them.
fn push_faces(pieces: &mut Pieces, faces: &[RawFace]) -> Result<(), OutOfMemory>
    ensures { OnOk result (pieces.new ≡ pieces.old ++ listed_faces faces.now) }
{
    match faces {
        [] => Ok(()),
        [first, others @ ..] => {
            push_face(pieces, *first)?;
            push_more_faces(pieces, others)
        }
    }
}

// What stands behind the type of a binder.
fn push_bind_end(pieces: &mut Pieces, tope: Option<Raw>) -> Result<(), OutOfMemory>
    ensures { OnOk result (pieces.new ≡ pieces.old ++ bind_end tope) }
{
    match tope {
        None => pieces.push(mark(Tok::CloseParen)),
        Some(tope) => {
            pieces.extend_from_slice(&[mark(Tok::Bar), term(tope), mark(Tok::CloseParen)])
        }
    }
}

// A binder in brackets, or its pattern alone where it has no type.
fn push_bind(pieces: &mut Pieces, bind: Bind) -> Result<(), OutOfMemory>
    ensures { OnOk result (pieces.new ≡ pieces.old ++ bind_pieces bind) }
{
    let pattern = Piece::Pattern { pat: bind.pat };
    match bind.of {
        None => pieces.push(pattern),
        Some(of) => {
            let front = [mark(Tok::OpenParen), pattern, mark(Tok::Colon), term(of)];
            pieces.extend_from_slice(&front)?;
            push_bind_end(pieces, bind.tope)
        }
    }
}

fn push_parameters(pieces: &mut Pieces, binds: &[Bind]) -> Result<(), OutOfMemory>
    ensures { OnOk result (pieces.new ≡ pieces.old ++ parameter_pieces binds.now) }
{
    for bind in binds {
        push_bind(pieces, *bind)?;
    }
    Ok(())
}

/// The pieces before the arrow of a function type whose binder has this pattern.
pub fn domain_pieces(alloc: Global, shape: &Shape, bind: Bind) -> Result<Pieces, OutOfMemory>
    ensures { IfOk result (λ pieces. pieces ≡ domain_pieces shape.now bind) }
{
    if let (Shape::Blank, Some(of), None) = (shape, bind.of, bind.tope) {
        return Values::from_slice(alloc, &[part(Level::Rest, of)]);
    }
    let mut pieces = Values::new(alloc);
    push_bind(&mut pieces, bind)?;
    Ok(pieces)
}

/// The pieces of a pattern; a name is none.
pub fn shape_pieces(alloc: Global, shape: &Shape) -> Result<Pieces, OutOfMemory>
    ensures { IfOk result (λ pieces. pieces ≡ shape_pieces shape.now) }
{
    match shape {
        Shape::Named { .. } => Ok(Values::new(alloc)),
        Shape::Blank => Values::from_slice(alloc, &[mark(Tok::Blank)]),
        Shape::Pair { left, right } => Values::from_slice(
            alloc,
            &[
                mark(Tok::OpenParen),
                Piece::Pattern { pat: *left },
                mark(Tok::Comma),
                Piece::Pattern { pat: *right },
                mark(Tok::CloseParen),
            ],
        ),
    }
}

// Two parts, and a mark between them.
fn between(alloc: Global, left: Piece, kind: Tok, right: Piece) -> Result<Pieces, OutOfMemory>
    ensures { IfOk result (λ pieces. pieces ≡ between left kind right) }
{
    Values::from_slice(alloc, &[left, mark(kind), right])
}

// A mark, binders, another mark, and a body.
fn under_binds(
    alloc: Global,
    kind: Tok,
    binds: &[Bind],
    end: Tok,
    body: Raw,
) -> Result<Pieces, OutOfMemory>
    ensures { IfOk result (λ pieces. pieces ≡ under_binds kind binds.now end body) }
{
    let mut pieces = Values::from_slice(alloc, &[mark(kind)])?;
    push_parameters(&mut pieces, binds)?;
    pieces.extend_from_slice(&[mark(end), term(body)])?;
    Ok(pieces)
}

// What stands first, faces, and a bracket.
fn with_faces(
    alloc: Global,
    front: [Piece; 2],
    faces: &[RawFace],
    end: Tok,
) -> Result<Pieces, OutOfMemory>
    ensures { IfOk result (λ pieces. pieces ≡ with_faces front faces.now end) }
{
    let mut pieces = Values::from_slice(alloc, &front)?;
    push_faces(&mut pieces, faces)?;
    pieces.push(mark(end))?;
    Ok(pieces)
}

// The six parts of an induction.
fn induction(alloc: Global, parts: &[Raw]) -> Result<Pieces, OutOfMemory>
    ensures { IfOk result (λ pieces. pieces ≡ induction_pieces parts.now) }
{
    let mut pieces = Values::from_slice(alloc, &[mark(Tok::IdJ), mark(Tok::OpenParen)])?;
    push_terms(&mut pieces, parts)?;
    pieces.push(mark(Tok::CloseParen))?;
    Ok(pieces)
}

// A head, and its arguments.
fn application(alloc: Global, head: Raw, args: &[Raw]) -> Result<Pieces, OutOfMemory>
    ensures { IfOk result (λ pieces. pieces ≡ application_pieces head args.now) }
{
    let mut pieces = Values::from_slice(alloc, &[part(Level::Head, head)])?;
    push_arguments(&mut pieces, args)?;
    Ok(pieces)
}

// A reflexivity, maybe with its type.
fn reflexivity(alloc: Global, point: Raw, of: Option<Raw>) -> Result<Pieces, OutOfMemory>
    ensures { IfOk result (λ pieces. pieces ≡ reflexivity_pieces point of) }
{
    let (open, close) = (mark(Tok::ReflAt), mark(Tok::CloseBrace));
    match of {
        None => Values::from_slice(alloc, &[open, term(point), close]),
        Some(of) => {
            Values::from_slice(
                alloc,
                &[open, term(point), mark(Tok::Colon), term(of), close],
            )
        }
    }
}

// An equality at a type.
fn equality(alloc: Global, of: Raw, left: Raw, right: Raw) -> Result<Pieces, OutOfMemory>
    ensures { IfOk result (λ pieces. pieces ≡ equality_pieces of left right) }
{
    let pieces = [
        part(Level::Product, left),
        mark(Tok::EqualAt),
        term(of),
        mark(Tok::CloseBrace),
        part(Level::Product, right),
    ];
    Values::from_slice(alloc, &pieces)
}

// The pieces of a form that is no part of a level above applications.
fn inner_layout(alloc: Global, form: &Form) -> Result<Pieces, OutOfMemory>
    ensures { IfOk result (λ pieces. pieces ≡ inner_layout form.now) }
{
    match form {
        Form::ReflAt { term, of } => reflexivity(alloc, *term, *of),
        Form::IdJ { parts } => induction(alloc, parts.as_slice()),
        Form::RecOr { faces } => {
            let front = [mark(Tok::RecOr), mark(Tok::OpenParen)];
            with_faces(alloc, front, faces.as_slice(), Tok::CloseParen)
        }
        Form::Pair { left, right } => {
            let (open, close) = (mark(Tok::OpenParen), mark(Tok::CloseParen));
            let pieces = [open, term(*left), mark(Tok::Comma), term(*right), close];
            Values::from_slice(alloc, &pieces)
        }
        Form::App { head, args } => application(alloc, *head, args.as_slice()),
        Form::First { arg } => {
            Values::from_slice(alloc, &[mark(Tok::First), part(Level::Atom, *arg)])
        }
        Form::Second { arg } => {
            Values::from_slice(alloc, &[mark(Tok::Second), part(Level::Atom, *arg)])
        }
        _ => match leaf_kind(form) {
            Some(kind) => Values::from_slice(alloc, &[mark(kind)]),
            None => Ok(Values::new(alloc)),
        },
    }
}

// The pieces of a form with a mark between two parts, or those of one that is none.
fn joined_layout(alloc: Global, form: &Form) -> Result<Pieces, OutOfMemory>
    ensures { IfOk result (λ pieces. pieces ≡ joined_layout form.now) }
{
    let (left, before, kind, after, right) = match form {
        Form::Or { left, right } => {
            (left, Level::Conjunction, Tok::Or, Level::Disjunction, right)
        }
        Form::And { left, right } => (left, Level::Relation, Tok::And, Level::Conjunction, right),
        Form::SamePoint { left, right } => {
            (left, Level::Product, Tok::SamePoint, Level::Product, right)
        }
        Form::AtMost { left, right } => (left, Level::Product, Tok::AtMost, Level::Product, right),
        Form::Equal { left, right } => (left, Level::Product, Tok::Equal, Level::Product, right),
        Form::Product { left, right } => {
            (
                left,
                Level::Product,
                Tok::Product,
                Level::Application,
                right,
            )
        }
        _ => return inner_layout(alloc, form),
    };
    between(alloc, part(before, *left), kind, part(after, *right))
}

/// The pieces of a form without brackets; none where it is a name, or no form that is written.
pub fn layout(alloc: Global, form: &Form) -> Result<Pieces, OutOfMemory>
    ensures { IfOk result (λ pieces. pieces ≡ layout form.now) }
{
    match form {
        Form::Lambda { binds, body } => {
            under_binds(alloc, Tok::Lambda, binds.as_slice(), Tok::Arrow, *body)
        }
        Form::Sigma { bind, body } => under_binds(alloc, Tok::Sigma, &[*bind], Tok::Comma, *body),
        Form::Arrow { bind, body } => {
            between(
                alloc,
                Piece::Domain { bind: *bind },
                Tok::Arrow,
                term(*body),
            )
        }
        Form::As { term, of } => {
            between(
                alloc,
                part(Level::Rest, *term),
                Tok::As,
                part(Level::Rest, *of),
            )
        }
        Form::Restrict { body, faces } => {
            let front = [part(Level::Disjunction, *body), mark(Tok::OpenBracket)];
            with_faces(alloc, front, faces.as_slice(), Tok::CloseBracket)
        }
        Form::EqualAt { of, left, right } => equality(alloc, *of, *left, *right),
        _ => joined_layout(alloc, form),
    }
}

/// The pieces of a form at a level: in brackets where it doesn't stand there without.
pub fn placed(alloc: Global, level: Level, form: &Form) -> Result<Pieces, OutOfMemory>
    ensures { IfOk result (λ pieces. pieces ≡ placed level form.now) }
{
    let pieces = layout(alloc, form)?;
    if rank(level) <= rank(home(form)) {
        return Ok(pieces);
    }
    let mut bracketed = Values::from_slice(alloc, &[mark(Tok::OpenParen)])?;
    bracketed.extend_from_slice(pieces.as_slice())?;
    bracketed.push(mark(Tok::CloseParen))?;
    Ok(bracketed)
}
