//! Texts of terms.

ghost use Rattle.std.specs.Prelude.{IfSome};
ghost use Rattle.rz_print.specs.Meaning.{NameReadable};

use rz_lex::tokens;
use rz_print::print;
use rz_syntax::{Command, Commands, parse};
use std::alloc::Global;
use std::test::Fail;

// Terms, and their texts.
const TEXTS: &[(&str, &str)] = &[
    // A text that stays as it is.
    ("x", "x"),
    ("f x y", "f x y"),
    (
        "U CUBE TOPE 1 2 *_1 0_2 1_2 TOP BOT Unit unit recBOT refl",
        "U CUBE TOPE 1 2 *_1 0_2 1_2 TOP BOT Unit unit recBOT refl",
    ),
    ("refl_{x}", "refl_{x}"),
    ("refl_{x : A}", "refl_{x : A}"),
    ("refl_{f x : A -> B}", "refl_{f x : A -> B}"),
    ("idJ (a,b,c,d,e,f)", "idJ(a, b, c, d, e, f)"),
    (
        "idJ (a , b , \\ x p -> A , d , e , (f , g))",
        "idJ(a, b, \\ x p -> A, d, e, (f, g))",
    ),
    ("recOR (a |-> b , c |-> d)", "recOR(a |-> b, c |-> d)"),
    (
        "recOR (a |-> b , c \\/ d |-> \\ x -> x , e |-> f)",
        "recOR(a |-> b, c \\/ d |-> \\ x -> x, e |-> f)",
    ),
    ("(a , b)", "(a, b)"),
    ("((a , b) , c)", "((a, b), c)"),
    ("(a , (b , c))", "(a, (b, c))"),
    // Brackets that are not needed.
    ("((x))", "x"),
    ("(f x)", "f x"),
    ("(f) (x)", "f x"),
    ("f (x) ((y))", "f x y"),
    ("(first p)", "first p"),
    ("(first p) x", "first p x"),
    ("(a × b) × c", "a * b * c"),
    ("a \\/ (b \\/ c)", "a \\/ b \\/ c"),
    ("a /\\ (b /\\ c)", "a /\\ b /\\ c"),
    ("(a /\\ b) \\/ (c /\\ d)", "a /\\ b \\/ c /\\ d"),
    ("(a = b) /\\ (c === d)", "a = b /\\ c === d"),
    ("(f x) <= (g y)", "f x <= g y"),
    ("(a × b) = (c × d)", "a * b = c * d"),
    ("A -> (B -> C)", "A -> B -> C"),
    ("A -> (x as B)", "A -> x as B"),
    ("\\ x -> (\\ y -> x)", "\\ x -> \\ y -> x"),
    ("(a \\/ b) [p |-> (x)]", "a \\/ b [p |-> x]"),
    ("(A [p |-> x]) -> B", "A [p |-> x] -> B"),
    (
        "(A [p |-> x]) as (B [q |-> y])",
        "A [p |-> x] as B [q |-> y]",
    ),
    ("(_ : A) -> B", "A -> B"),
    ("{x : A | p} -> B", "(x : A | p) -> B"),
    ("(x y : A) -> B", "(x : A) -> (y : A) -> B"),
    ("\\ (x y : A) z -> x", "\\ (x : A) (y : A) z -> x"),
    // Brackets that are.
    ("f (g x)", "f (g x)"),
    ("f (first p)", "f (first p)"),
    ("first (first p)", "first (first p)"),
    ("first (f x)", "first (f x)"),
    ("second (first p) x", "second (first p) x"),
    ("(f x) y", "(f x) y"),
    ("(first p x) y", "(first p x) y"),
    ("(\\ x -> x) y", "(\\ x -> x) y"),
    ("f (\\ x -> x)", "f (\\ x -> x)"),
    ("a × (b × c)", "a * (b * c)"),
    ("(a = b) × c", "(a = b) * c"),
    ("a × (b = c)", "a * (b = c)"),
    ("(a /\\ b) /\\ c", "(a /\\ b) /\\ c"),
    ("(a \\/ b) \\/ c", "(a \\/ b) \\/ c"),
    ("(a \\/ b) /\\ c", "(a \\/ b) /\\ c"),
    ("a /\\ (b \\/ c)", "a /\\ (b \\/ c)"),
    ("(x = y) = z", "(x = y) = z"),
    ("x = (y = z)", "x = (y = z)"),
    ("x =_{A -> B} (y =_{C} z)", "x =_{A -> B} (y =_{C} z)"),
    ("(x <= y) =_{A} (\\ x -> x)", "(x <= y) =_{A} (\\ x -> x)"),
    ("(A -> B) -> C", "(A -> B) -> C"),
    ("(A -> B) as C", "(A -> B) as C"),
    ("a as (A -> B)", "a as (A -> B)"),
    ("(a as A) as B", "(a as A) as B"),
    ("a as (b as B)", "a as (b as B)"),
    ("(a as A) -> B", "(a as A) -> B"),
    ("(\\ x -> x) -> B", "(\\ x -> x) -> B"),
    ("((x : A) -> B) -> C", "((x : A) -> B) -> C"),
    ("(Sigma (x : A) , B) -> C", "(Sigma (x : A), B) -> C"),
    ("(A [p |-> x]) [q |-> y]", "(A [p |-> x]) [q |-> y]"),
    ("(A -> B) [q |-> y]", "(A -> B) [q |-> y]"),
    ("A [(p -> q) |-> y -> z]", "A [(p -> q) |-> y -> z]"),
    ("f (A [p |-> x])", "f (A [p |-> x])"),
    ("(A [p |-> x]) × B", "(A [p |-> x]) * B"),
    // Binders.
    ("(x : A) -> B", "(x : A) -> B"),
    ("(x : A | p) -> B", "(x : A | p) -> B"),
    ("(_ : A | p) -> B", "(_ : A | p) -> B"),
    ("((x , _) : A) -> B", "((x, _) : A) -> B"),
    ("\\ x -> x", "\\ x -> x"),
    ("\\ _ -> x", "\\ _ -> x"),
    (
        "\\ x (y , (z , _)) (w : A) {v : B | p} -> x",
        "\\ x (y, (z, _)) (w : A) (v : B | p) -> x",
    ),
    ("Sigma (x : A) , B", "Sigma (x : A), B"),
    (
        "Sigma ((x , y) : A -> B) , x as C",
        "Sigma ((x, y) : A -> B), x as C",
    ),
    // Both spellings.
    ("A → B", "A -> B"),
    (
        "Σ (x : A) , x ≡ y ∧ x ≤ y ∨ ⊤",
        "Sigma (x : A), x === y /\\ x <= y \\/ TOP",
    ),
    (
        "A [t ≡ 0₂ ↦ x, t ≡ 1₂ ↦ y]",
        "A [t === 0_2 |-> x, t === 1_2 |-> y]",
    ),
    ("⋆₁ ⊥ (π₁ p) (π₂ p)", "*_1 BOT (first p) (second p)"),
    ("Δ¹ is-segal x' :x", "Δ¹ is-segal x' :x"),
    // Types and bodies of whole declarations.
    ("\\ t -> refl_{x}", "\\ t -> refl_{x}"),
    ("\\ t → TOP", "\\ t -> TOP"),
    ("hom A x x", "hom A x x"),
    (
        "(t : Δ¹) → A [t ≡ 0₂ ↦ x, t ≡ 1₂ ↦ y]",
        "(t : Δ¹) -> A [t === 0_2 |-> x, t === 1_2 |-> y]",
    ),
    ("(2 × 2) → TOPE", "2 * 2 -> TOPE"),
    ("\\ (t , s) → s ≤ t", "\\ (t, s) -> s <= t"),
    ("k (0₂ , 0₂) =_{A} x", "k (0_2, 0_2) =_{A} x"),
    ("(t : 2) → (s : 2) → A", "(t : 2) -> (s : 2) -> A"),
    (
        "(t : 2) → (s : 2) → A [t <= s |-> g t s]",
        "(t : 2) -> (s : 2) -> A [t <= s |-> g t s]",
    ),
    ("(A : U) → A → A", "(A : U) -> A -> A"),
    ("{t : 2 | t === 0_2} -> A", "(t : 2 | t === 0_2) -> A"),
    ("f 1_2", "f 1_2"),
    ("2 × 2 × 2 × 2", "2 * 2 * 2 * 2"),
    ("A [TOP |-> x]", "A [TOP |-> x]"),
    ("(x as A)", "x as A"),
    (
        "{t : 2 | t === 0_2 /\\ t === 1_2} -> x =_{A} y",
        "(t : 2 | t === 0_2 /\\ t === 1_2) -> x =_{A} y",
    ),
    (
        "((t , s) : Δ²) → A [s ≡ 0₂ ↦ f t, t ≡ 1₂ ↦ g s, s ≡ t ↦ h s]",
        "((t, s) : Δ²) -> A [s === 0_2 |-> f t, t === 1_2 |-> g s, s === t |-> h s]",
    ),
    (
        "recOR(t <= s |-> a, s <= t |-> b)",
        "recOR(t <= s |-> a, s <= t |-> b)",
    ),
    (
        "f t s =_{A} recOR(t <= s |-> g t s, s <= t |-> f t s)",
        "f t s =_{A} recOR(t <= s |-> g t s, s <= t |-> f t s)",
    ),
    ("(A : U) → (A → A) → A → A", "(A : U) -> (A -> A) -> A -> A"),
    ("\\ A f x → f (f x)", "\\ A f x -> f (f x)"),
    ("\\ A → n (A → A) (m A)", "\\ A -> n (A -> A) (m A)"),
    ("d4 A (\\ y → y) x =_{A} x", "d4 A (\\ y -> y) x =_{A} x"),
    ("(\\ (x : U) -> x) U", "(\\ (x : U) -> x) U"),
];

// Forms, each with the last level at which it stands without brackets. The levels of the grammar
// are counted from 0: term, rest, disjunction, conjunction, relation, product, application, head
// and atom.
const FORMS: &[(&str, u64)] = &[
    ("x", 8),
    ("U", 8),
    ("refl_{x}", 8),
    ("refl_{x : A}", 8),
    ("(x, y)", 8),
    ("idJ(x, y, z, u, v, w)", 8),
    ("recOR(p |-> x, q |-> y)", 8),
    ("first x", 7),
    ("second x", 7),
    ("f x", 6),
    ("x * y", 5),
    ("x === y", 4),
    ("x <= y", 4),
    ("x = y", 4),
    ("x =_{A} y", 4),
    ("p /\\ q", 3),
    ("p \\/ q", 2),
    ("A [p |-> x]", 1),
    ("x as A", 0),
    ("A -> B", 0),
    ("(x : A) -> B", 0),
    ("\\ x -> x", 0),
    ("Sigma (x : A), B", 0),
];

// What stands before and behind a form, and the level that the grammar asks for there.
const POSITIONS: &[(&str, &str, u64)] = &[
    ("", "", 0),
    ("\\ x -> ", "", 0),
    ("\\ (x : ", ") -> x", 0),
    ("Sigma (x : A), ", "", 0),
    ("Sigma (x : ", "), A", 0),
    ("(x : ", ") -> A", 0),
    ("(x : A | ", ") -> A", 0),
    ("A -> ", "", 0),
    ("", " -> A", 1),
    ("", " as A", 1),
    ("a as ", "", 1),
    ("", " [p |-> a]", 2),
    ("A [", " |-> a]", 2),
    ("A [p |-> ", "]", 0),
    ("", " \\/ p", 3),
    ("p \\/ ", "", 2),
    ("", " /\\ p", 4),
    ("p /\\ ", "", 3),
    ("", " === a", 5),
    ("a === ", "", 5),
    ("", " <= a", 5),
    ("a <= ", "", 5),
    ("", " = a", 5),
    ("a = ", "", 5),
    ("", " =_{A} a", 5),
    ("a =_{", "} a", 0),
    ("a =_{A} ", "", 5),
    ("", " * a", 5),
    ("a * ", "", 6),
    ("", " a", 7),
    ("f ", "", 8),
    ("f ", " a", 8),
    ("first ", "", 8),
    ("second ", "", 8),
    ("(", ", a)", 0),
    ("(a, ", ")", 0),
    ("refl_{", "}", 0),
    ("refl_{", " : A}", 0),
    ("refl_{a : ", "}", 0),
    ("idJ(a, b, ", ", d, e, f)", 0),
    ("recOR(", " |-> a, q |-> b)", 2),
    ("recOR(p |-> ", ", q |-> b)", 0),
];

// Declarations, with the texts of their types and of their bodies.
const DECLARED: &[(&str, &str, &str)] = &[
    (
        "#def odd (A : U) (x y : A) : {t : 2 | t === 0_2 /\\ t === 1_2} -> x =_{A} y
            := \\ t -> refl_{x}",
        "(t : 2 | t === 0_2 /\\ t === 1_2) -> x =_{A} y",
        "\\ t -> refl_{x}",
    ),
    (
        "#def exp (m n : N) : N := \\ A → n (A → A) (m A)",
        "N",
        "\\ A -> n (A -> A) (m A)",
    ),
    (
        "#def half (A : U) (f : (t : 2) → (s : 2) → A [t <= s |-> g t s]) (t s : 2)
            : f t s =_{A} recOR(t <= s |-> g t s, s <= t |-> f t s) := refl_{f t s}",
        "f t s =_{A} recOR(t <= s |-> g t s, s <= t |-> f t s)",
        "refl_{f t s}",
    ),
];

// The commands of a source.
#[tactic(auto, using(rz_print::proofs::Back::file_readable))]
fn read(alloc: Global, source: &str) -> Option<Commands>
    ensures { IfSome result (λ commands. NameReadable commands.shapes commands.forms commands.list) }
{
    let Ok(found) = tokens(alloc, source) else {
        return None;
    };
    let Ok(commands) = parse(alloc, source, found.as_slice()) else {
        return None;
    };
    Some(commands)
}

// The commands of a source that computes a term.
fn read_term(alloc: Global, term: &str) -> Option<Commands>
    ensures { IfSome result (λ commands. NameReadable commands.shapes commands.forms commands.list) }
{
    let Ok(source) = format!(in alloc; "#lang rzk-1 #compute {term}") else {
        return None;
    };
    read(alloc, source.as_str())
}

// The text of the term that a source computes.
fn printed(alloc: Global, term: &str) -> Option<String> {
    let commands = read_term(alloc, term)?;
    let (shapes, forms) = (commands.shapes.as_slice(), commands.forms.as_slice());
    match commands.list.get(0) {
        Some(Command::Compute { term, .. }) => print(alloc, shapes, forms, *term).ok(),
        _ => None,
    }
}

#[test]
fn terms_are_printed(rt: HostRuntime) -> Result<(), Fail> {
    for (term, wanted) in TEXTS {
        let text = printed(rt.alloc(), term).ok_or("the term is printed")?;
        assert_eq!(rt; text.as_str(), *wanted, "of {term}");
        let again = printed(rt.alloc(), text.as_str()).ok_or("the text is printed")?;
        assert_eq!(rt; again.as_str(), *wanted, "of the text of {term}");
    }
    Ok(())
}

// The texts of the type and of the body of a declaration.
fn declared(alloc: Global, declaration: &str) -> Option<(String, String)> {
    let Ok(source) = format!(in alloc; "#lang rzk-1 {declaration}") else {
        return None;
    };
    let commands = read(alloc, source.as_str())?;
    let (shapes, forms) = (commands.shapes.as_slice(), commands.forms.as_slice());
    match commands.list.get(0) {
        Some(Command::Def { of, body, .. }) => {
            let of = print(alloc, shapes, forms, *of).ok()?;
            Some((of, print(alloc, shapes, forms, *body).ok()?))
        }
        _ => None,
    }
}

#[test]
fn declarations_are_printed(rt: HostRuntime) -> Result<(), Fail> {
    for (declaration, of, body) in DECLARED {
        let texts = declared(rt.alloc(), declaration).ok_or("the declaration is printed")?;
        assert_eq!(rt; texts.0.as_str(), *of, "of {declaration}");
        assert_eq!(rt; texts.1.as_str(), *body, "of {declaration}");
    }
    Ok(())
}

// The place of the bracket that closes the one at a place.
fn closing(text: &[u8], open: usize) -> Option<usize> {
    let mut depth: usize = 0;
    for place in open..text.len() {
        match text[place] {
            b'(' => depth = depth.saturating_add(1),
            b')' => depth = depth.saturating_sub(1),
            _ => {}
        }
        if depth == 0 {
            return Some(place);
        }
    }
    None
}

// The text with spaces in place of two of its bytes.
fn without(alloc: Global, text: &[u8], open: usize, close: usize) -> Option<String> {
    let mut bytes = Vec::new(alloc);
    for place in 0..text.len() {
        let is_left_out = place == open || place == close;
        bytes
            .push(if is_left_out { b' ' } else { text[place] })
            .ok()?;
    }
    String::from_utf8(bytes).ok()
}

// Whether a text is printed as the same text without a pair of its brackets.
fn can_lose_brackets(alloc: Global, text: &str, open: usize) -> Option<bool> {
    let close = closing(text.as_bytes(), open)?;
    let other = without(alloc, text.as_bytes(), open, close)?;
    let Some(again) = printed(alloc, other.as_str()) else {
        return Some(false);
    };
    Some(again.as_str() == text)
}

#[test]
fn no_brackets_can_be_left_out(rt: HostRuntime) -> Result<(), Fail> {
    for (_, text) in TEXTS {
        for open in 0..text.len() {
            if text.as_bytes()[open] == b'(' {
                let can = can_lose_brackets(rt.alloc(), text, open).ok_or("the text is changed")?;
                assert_eq!(rt; can, false, "of {text} at {open}");
            }
        }
    }
    Ok(())
}

// The text of a form in brackets at a position, and the text that is wanted.
fn placed(
    alloc: Global,
    before: &str,
    form: &str,
    after: &str,
    stands: bool,
) -> Option<(String, String)> {
    let Ok(bracketed) = format!(in alloc; "{before}({form}){after}") else {
        return None;
    };
    let text = printed(alloc, bracketed.as_str())?;
    if !stands {
        return Some((text, bracketed));
    }
    match format!(in alloc; "{before}{form}{after}") {
        Ok(bare) => Some((text, bare)),
        Err(_) => None,
    }
}

#[test]
fn forms_have_brackets_where_they_need_them(rt: HostRuntime) -> Result<(), Fail> {
    for (before, after, asked) in POSITIONS {
        for (form, level) in FORMS {
            let stands = *asked <= *level;
            let texts = placed(rt.alloc(), before, form, after, stands).ok_or("it is printed")?;
            assert_eq!(rt;
                texts.0.as_str(),
                texts.1.as_str(),
                "of {form} in {before}..{after}"
            );
        }
    }
    Ok(())
}
