//! Forms by hand. A form is written in prefix notation, each word one token: `1 2 x` are cubes, `* 0 e
//! , f s` the points and the two projections, `T F & | = <` topes, `U C P` the three sorts, `g` a
//! global name, and `b2lr` the name of the third binder from within at the path `lr`. `d` and `p` are
//! a product and a pair of a part with itself. A tree is written in the words of the node table.

use rz_pool::Pool;
use rz_rules::{Name, Numbers, Refusal};
use rz_shape::{Binder, Binders, Local, ShapeFault, Variables, cube, point, tope};
use rz_syntax::{Form, Raw};
use rz_tree_tests::read;
use std::alloc::Global;
use std::process::Abort;
use std::test::Fail;

/// The context of the rows, whose binders are a point, a term and a point.
const CONTEXT: &str = "xcube xterm xcube nil cx cx c2 c1 c2 U c2";

/// What a form is read as, and its cube where it is a point; the form; its tree, where it is small,
/// or the refusal and the number of the token at which it stands.
const ROWS: &[(&str, &str, &str, &str, u64)] = &[
    ("cube", "1", "c1", "", 0),
    ("cube", "x x 2 1 2", "cx cx c2 c1 c2", "", 0),
    ("cube", "x 2 U", "", "clash", 2),
    ("cube", "x C x P 2", "", "clash", 1),
    ("cube", "g", "", "clash", 0),
    ("cube", "T", "", "clash", 0),
    ("cube", "0", "", "clash", 0),
    ("cube", "b0", "", "clash", 0),
    ("cube", "d d d d d d 2", "", "", 0),
    ("cube", "d d d d d d d 2", "", "wide", 0),
    ("cube", "x 2 x d d d d d d 2 1", "", "wide", 2),
    ("c2", "b0", "pv 0", "", 0),
    ("cx cx c2 c1 c2", "b2", "pv 1", "", 0),
    ("cx c2 c1", "b2l", "pl pv 1", "", 0),
    ("c2", "b2r", "pr pv 1", "", 0),
    ("c1", "b2lr", "pr pl pv 1", "", 0),
    ("c2", "b2ll", "pl pl pv 1", "", 0),
    ("c2", "b2lll", "", "point", 0),
    ("c2", "b0l", "", "point", 0),
    ("c1", "b1", "", "clash", 0),
    ("c1", "b3", "", "clash", 0),
    ("c1", "*", "pstar", "", 0),
    ("cx c2 c2", ", 0 e", "pp p0 p1", "", 0),
    ("c2", "f , 0 *", "pl pp p0 pstar", "", 0),
    ("c1", "s , 0 *", "pr pp p0 pstar", "", 0),
    ("c2", "f s f 0", "", "point", 3),
    ("c2", "f b0", "", "point", 1),
    ("c2", "s *", "", "point", 1),
    ("c1", "s , e 0", "", "point", 0),
    ("cx c2 c2", ", 0 *", "", "point", 0),
    ("cx c2 c2", ", b0 , U g", "", "clash", 3),
    ("c2", "f , f * U", "", "point", 3),
    ("c2", "p p p p p p p 0", "", "wide", 0),
    ("c2", "f , p p p p p p 0 *", "", "wide", 1),
    ("c2", "2", "", "clash", 0),
    ("c2", "< 0 e", "", "clash", 0),
    ("c2", "g", "", "clash", 0),
    ("tope", "= p p p p p p 0 p p p p p p e", "", "", 0),
    ("tope", "= b0 p p p p p p p 0", "", "wide", 2),
    ("tope", "| T & F T", "tor ttop tand tbot ttop", "", 0),
    ("tope", "= b0 e", "teq c2 pv 0 p1", "", 0),
    (
        "tope",
        "= f b2 , 0 *",
        "teq cx c2 c1 pl pv 1 pp p0 pstar",
        "",
        0,
    ),
    ("tope", "< 0 b0", "tle p0 pv 0", "", 0),
    ("tope", "= b0 *", "", "point", 2),
    ("tope", "= * b0", "", "point", 2),
    ("tope", "= g U", "", "clash", 1),
    ("tope", "< * 0", "", "point", 1),
    ("tope", "< b2 U", "", "point", 1),
    ("tope", "< 0 *", "", "point", 2),
    ("tope", "< 0 T", "", "clash", 2),
    ("tope", "& T 0", "", "clash", 2),
    ("tope", "| U C", "", "clash", 1),
    ("tope", "2", "", "clash", 0),
    ("tope", "g", "", "clash", 0),
    ("tope", "b1", "", "clash", 0),
];

/// The id of the tree that a text spells.
fn tree(alloc: Global, pool: &mut Pool, text: &str) -> Result<u64, Fail> {
    Ok(read(alloc, pool, text)?.ok_or("no tree")?)
}

/// The name of a binder, from the letters behind the first of its word.
fn bound(alloc: Global, letters: &[u8]) -> Result<Form, Fail> {
    let (up, path) = letters.split_first().ok_or("no binder")?;
    let mut name = Name::new(alloc);
    for letter in path {
        name.push(if *letter == b'l' { 'l' } else { 'r' })?;
    }
    let up = up.checked_sub(b'0').ok_or("no number")?;
    Ok(Form::Bound {
        up: u64::from(up),
        path: name,
    })
}

/// The form of two parts that a word begins.
fn two(word: u8, left: Raw, right: Raw) -> Option<Form> {
    match word {
        b'x' => Some(Form::Product { left, right }),
        b',' => Some(Form::Pair { left, right }),
        b'&' => Some(Form::And { left, right }),
        b'|' => Some(Form::Or { left, right }),
        b'=' => Some(Form::SamePoint { left, right }),
        b'<' => Some(Form::AtMost { left, right }),
        _ => None,
    }
}

/// The form that is one word.
fn leaf(alloc: Global, word: u8) -> Option<Form> {
    match word {
        b'1' => Some(Form::CubeOne),
        b'2' => Some(Form::CubeTwo),
        b'*' => Some(Form::Star),
        b'0' => Some(Form::EndZero),
        b'e' => Some(Form::EndOne),
        b'T' => Some(Form::Top),
        b'F' => Some(Form::Bottom),
        b'U' => Some(Form::Universe),
        b'C' => Some(Form::CubeSort),
        b'P' => Some(Form::TopeSort),
        b'g' => Some(Form::Global {
            id: 0,
            args: Numbers::new(alloc),
        }),
        _ => None,
    }
}

/// The form that a word begins, whose parts are on the stack, the first on top.
fn form(alloc: Global, word: &[u8], parts: &mut Vec<Raw>) -> Result<Form, Fail> {
    let (first, letters) = word.split_first().ok_or("no word")?;
    if *first == b'b' {
        return bound(alloc, letters);
    }
    if let Some(form) = leaf(alloc, *first) {
        return Ok(form);
    }
    let arg = parts.pop().ok_or("no part")?;
    match *first {
        b'f' => Ok(Form::First { arg }),
        b's' => Ok(Form::Second { arg }),
        b'd' => Ok(Form::Product {
            left: arg,
            right: arg,
        }),
        b'p' => Ok(Form::Pair {
            left: arg,
            right: arg,
        }),
        word => {
            let right = parts.pop().ok_or("no right part")?;
            Ok(two(word, arg, right).ok_or("no form")?)
        }
    }
}

/// The form with this text, whose parts are added to a table.
fn written(alloc: Global, forms: &mut Vec<Form>, text: &str) -> Result<Raw, Fail> {
    let mut at = text.split(' ').count() as u64;
    let mut parts = Vec::new(alloc);
    for word in text.rsplit(' ') {
        at = at.checked_sub(1).ok_or("more words")?;
        let number = forms.len() as u64;
        let form = form(alloc, word.as_bytes(), &mut parts)?;
        forms.push(form)?;
        parts.push(Raw { form: number, at })?;
    }
    Ok(parts.pop().ok_or("no form")?)
}

/// The refusal that a row names.
fn refusal(word: &str) -> Refusal {
    if word == "clash" {
        Refusal::KindClash
    } else if word == "wide" {
        Refusal::WideCube
    } else {
        Refusal::BadPoint
    }
}

/// Reads a form as what is wanted: a cube, a tope, or a point of the cube with this text.
fn read_as(
    rt: &impl Abort,
    alloc: Global,
    pool: &mut Pool,
    forms: &[Form],
    wanted: &str,
    raw: Raw,
) -> Result<Result<u64, ShapeFault>, Fail> {
    if wanted == "cube" {
        return Ok(cube(alloc, pool, forms, raw));
    }
    let binders = [Binder::Point, Binder::Term, Binder::Point];
    let local = Local {
        formed: 0,
        assumed: Numbers::new(alloc),
        binders: Binders::from_slice(alloc, &binders)?,
    };
    let context = tree(alloc, pool, CONTEXT)?;
    if wanted == "tope" {
        assert!(rt; context < pool.len());
        let read = tope(alloc, pool, context, forms, &local, raw);
        assert!(rt; context < pool.len());
        let names = Variables::new(alloc, pool, context, &binders)?;
        assert_eq!(rt; names.tope(alloc, pool, forms, raw), read);
        return Ok(read);
    }
    let wanted = tree(alloc, pool, wanted)?;
    assert!(rt; context < pool.len());
    assert!(rt; wanted < pool.len());
    Ok(point(alloc, pool, context, forms, &local, raw, wanted))
}

/// Reads a form as a row says, and compares what it is.
fn check_row(
    rt: &impl Abort,
    alloc: Global,
    row: &(&str, &str, &str, &str, u64),
) -> Result<(), Fail> {
    let mut pool = Pool::new(alloc);
    let mut forms = Vec::new(alloc);
    let raw = written(alloc, &mut forms, row.1)?;
    let read = read_as(rt, alloc, &mut pool, &forms, row.0, raw)?;
    let told = if row.3.is_empty() {
        if row.2.is_empty() {
            assert!(rt; read.is_ok());
            return Ok(());
        }
        Ok(tree(alloc, &mut pool, row.2)?)
    } else {
        Err(ShapeFault::Refused {
            why: refusal(row.3),
            at: row.4,
        })
    };
    assert_eq!(rt; read, told, "{}", row.1);
    Ok(())
}

#[test]
fn forms_are_read(rt: HostRuntime) -> Result<(), Fail> {
    for row in ROWS {
        check_row(&rt, rt.alloc(), row)?;
    }
    Ok(())
}
