use crate::show::show_commands;
use rz_lex::tokens;
use rz_syntax::{ParseFault, parse};
use std::alloc::{AllocError, Global};
use std::test::Fail;

// The answers to sources behind `#lang rzk-1`: none, or the number of the token of Syntax.
const READ: &[(&str, Option<u64>)] = &[
    ("", None),
    (";;", None),
    // Commands.
    ("#def x : U := U", None),
    ("#define x : U := U ;", None),
    ("#def x uses (a) : U := U", None),
    ("#def x uses (a b c) (y z : U) {t : 2 | TOP} : U := U", None),
    ("#postulate x : U", None),
    ("#postulate x uses (a) (y : U) : U", None),
    ("#check U : U", None),
    ("#compute U", None),
    ("#compute-whnf U", None),
    ("#compute-nf U ; ;", None),
    ("#section #section a #end #end a", None),
    ("#assume a : U", None),
    ("#variable a b : U", None),
    ("#variables a b c : U", None),
    ("#set-option \"a\" = \"b\"", None),
    ("#unset-option \"a\"", None),
    // Patterns and binders.
    ("#compute (x : U) -> U", None),
    ("#compute (x y _ : U) -> U", None),
    ("#compute ((x , y) : U) -> U", None),
    ("#compute ((x , (y , _)) z : U | TOP) -> U", None),
    ("#compute {x : 2 | TOP} -> U", None),
    ("#compute {x (y , z) : 2 | TOP} -> U", None),
    ("#compute \\ x -> x", None),
    (
        "#compute \\ x _ (y , z) (w : U) (a b : U | TOP) {t : 2 | BOT} -> x",
        None,
    ),
    ("#compute Sigma (x : U), U", None),
    ("#compute Sigma ((x , y) : U), U", None),
    // Terms.
    ("#compute A -> B -> C", None),
    ("#compute x as A", None),
    ("#compute x as A [p |-> y]", None),
    ("#compute A [p |-> y, q |-> z]", None),
    ("#compute a \\/ b \\/ c", None),
    ("#compute a /\\ b /\\ c", None),
    ("#compute a === b", None),
    ("#compute a <= b", None),
    ("#compute a = b", None),
    ("#compute a =_{A} b", None),
    ("#compute 1 × 2 * 2", None),
    ("#compute f x y z", None),
    ("#compute first p", None),
    ("#compute second p x", None),
    (
        "#compute U CUBE TOPE 1 2 *_1 0_2 1_2 TOP BOT Unit unit recBOT refl",
        None,
    ),
    ("#compute refl_{x}", None),
    ("#compute refl_{x : A}", None),
    ("#compute idJ (a, b, c, d, e, f)", None),
    ("#compute recOR (a |-> b, c |-> d)", None),
    ("#compute recOR (a |-> b, c |-> d, e |-> f)", None),
    ("#compute (x)", None),
    ("#compute (x , y)", None),
    ("#compute ((x))", None),
    ("#compute (x , y) (z)", None),
    ("#compute (x y)", None),
    ("#compute (x) -> U", None),
    // Whole declarations.
    ("#def id (A : U) (x : A) : A := x", None),
    ("#def Δ¹ : 2 → TOPE := \\ t → TOP", None),
    ("#def Δ² : (2 × 2) → TOPE := \\ (t , s) → s ≤ t", None),
    (
        "#def hom (A : U) (x y : A) : U := (t : Δ¹) → A [t ≡ 0₂ ↦ x, t ≡ 1₂ ↦ y]",
        None,
    ),
    (
        "#def hom2 (A : U) (x y z : A) (f : hom A x y) (g : hom A y z) (h : hom A x z) : U \
         := ((t , s) : Δ²) → A [s ≡ 0₂ ↦ f t, t ≡ 1₂ ↦ g s, s ≡ t ↦ h s]",
        None,
    ),
    (
        "#def vertex (A : U) (k : A) : k (0₂ , 0₂) =_{A} x := refl_{x}",
        None,
    ),
    (
        "#def bad (A : U) (a b : A) (t s : 2) : A := recOR(t <= s |-> a, s <= t |-> b)",
        None,
    ),
    (
        "#def half (A : U) (g : (t : 2) → (s : 2) → A) \
         (f : (t : 2) → (s : 2) → A [t <= s |-> g t s]) (t s : 2) \
         : f t s =_{A} recOR(t <= s |-> g t s, s <= t |-> f t s) := refl_{f t s}",
        None,
    ),
    (
        "#def odd (A : U) (x y : A) : {t : 2 | t === 0_2 /\\ t === 1_2} -> x =_{A} y \
         := \\ t -> refl_{x}",
        None,
    ),
    (
        "#def N : U := (A : U) → (A → A) → A → A #def two : N := \\ A f x → f (f x)",
        None,
    ),
    (
        "#section s #assume A : U #assume a : A #def q uses (a) : A := p #end s",
        None,
    ),
    ("#compute (\\ (x : U) -> x) U", None),
    (
        "#def e (A : U) (f : {t : 2 | t === 0_2} -> A) : A := f 1_2",
        None,
    ),
    ("#def r (A : U) (x : A) : A [TOP |-> x] := x", None),
    ("#compute ((x) : U) -> U", Some(7)),
    // No commands.
    ("x", Some(2)),
    ("#lang rzk-1", Some(2)),
    ("#compute U #lang rzk-1", Some(4)),
    ("#def", Some(3)),
    ("#def x :", Some(5)),
    ("#def : U", Some(3)),
    ("#def x: U := U", Some(4)),
    ("#def x U := U", Some(4)),
    ("#def x : U = U", Some(8)),
    ("#def x : U #check U : U", Some(6)),
    ("#def x () : U := U", Some(5)),
    ("#def x uses () : U := U", Some(6)),
    ("#def x (y : U) uses (a) : U := U", Some(9)),
    ("#postulate x : U := U", Some(6)),
    ("#check U", Some(4)),
    ("#compute", Some(3)),
    ("#compute ; U", Some(3)),
    ("#section a b", Some(4)),
    ("#assume : U", Some(3)),
    ("#set-option \"a\" = b", Some(5)),
    ("#unset-option a", Some(3)),
    // After `as` comes no function type.
    ("#compute a as A -> B", Some(6)),
    ("#compute f first p", Some(4)),
    ("#compute first first p", Some(4)),
    ("#compute x = y = z", Some(6)),
    ("#compute A [a |-> b] [a |-> b]", Some(9)),
    ("#compute A []", Some(5)),
    ("#check Sigma (x y : A), B : U", Some(6)),
    ("#check Sigma (x : A | p), B : U", Some(8)),
    ("#compute recOR (a |-> b)", Some(8)),
    ("#compute {x : 2} -> U", Some(7)),
    ("#compute {x}", Some(5)),
    ("#compute idJ (a, b, c, d, e)", Some(14)),
    ("#compute refl_{x : A : B}", Some(7)),
    ("#compute x =_{A y", Some(7)),
    ("#compute × 2", Some(3)),
    ("#compute 2 ×", Some(5)),
    ("#compute a \\/", Some(5)),
    // Two readings behind a bracket or a backslash: the last one that lives decides.
    ("#compute (x _ y)", Some(7)),
    ("#compute ((x , _) y)", Some(10)),
    ("#compute (x U : U)", Some(6)),
    ("#compute \\ (x) -> x", Some(6)),
    ("#compute \\ (x y)", Some(7)),
    ("#compute \\ (x , y z)", Some(8)),
    ("#compute (x : U)", Some(8)),
    ("#compute (x : U) U", Some(8)),
    ("#compute (_)", Some(5)),
    ("#compute (_ , x)", Some(5)),
    ("#compute ((_ , x) , y)", Some(9)),
    ("#compute (x , y : U)", Some(7)),
    ("#compute x)", Some(4)),
    ("#compute (x", Some(5)),
    ("#compute (x ]", Some(5)),
];

// Sources behind `#lang rzk-1`, and what they say: patterns; forms; commands. A part is told by its
// number in its table and its place.
const TREES: &[(&str, &str)] = &[
    ("#compute x", "; x ; compute 2 2 0.1"),
    (
        "#compute x ; #compute y ;",
        "; x y ; compute 2 2 0.1 compute 5 2 1.1",
    ),
    (
        "#compute f x y",
        "; f x y app 0.1 1.2 2.3 ; compute 2 4 3.1",
    ),
    // Each form without parts.
    (
        "#compute U CUBE TOPE 1 2 *_1 0_2 1_2 TOP BOT Unit unit recBOT refl",
        "; Universe CubeSort TopeSort CubeOne CubeTwo Star EndZero EndOne Top Bottom UnitType \
         UnitTerm RecBot Refl app 0.1 1.2 2.3 3.4 4.5 5.6 6.7 7.8 8.9 9.10 10.11 11.12 12.13 13.14 \
         ; compute 2 15 14.1",
    ),
    // Products group to the left, the others to the right.
    (
        "#compute 1 × 2 × a",
        "; CubeOne CubeTwo product 0.1 1.3 a product 2.1 3.5 ; compute 2 6 4.1",
    ),
    (
        "#compute a \\/ b \\/ c",
        "; a b c or 1.3 2.5 or 0.1 3.3 ; compute 2 6 4.1",
    ),
    (
        "#compute a /\\ b \\/ c",
        "; a b and 0.1 1.3 c or 2.1 3.5 ; compute 2 6 4.1",
    ),
    (
        "#compute a \\/ b /\\ c",
        "; a b c and 1.3 2.5 or 0.1 3.3 ; compute 2 6 4.1",
    ),
    (
        "#compute a === b /\\ c <= d",
        "; a b same-point 0.1 1.3 c d at-most 3.5 4.7 and 2.1 5.5 ; compute 2 8 6.1",
    ),
    (
        "#compute 1 × 2 = a",
        "; CubeOne CubeTwo product 0.1 1.3 a equal 2.1 3.5 ; compute 2 6 4.1",
    ),
    (
        "#compute x =_{A} y",
        "; x A y equal-at 1.3 0.1 2.5 ; compute 2 6 3.1",
    ),
    // A function type without a name has a binder with a nameless pattern.
    (
        "#compute A -> x as B",
        "_ ; A x B as 1.3 2.5 arrow 0.1:0.1 3.3 ; compute 2 6 4.1",
    ),
    (
        "#compute \\ x -> a as A",
        "x ; a A as 0.4 1.6 lambda 0.2 2.4 ; compute 2 7 3.1",
    ),
    // A form whose first part is in brackets begins at its bracket; one that is in brackets stands
    // inside.
    ("#compute (g) x", "; g x app 0.2 1.4 ; compute 2 5 2.1"),
    ("#compute (g x)", "; g x app 0.2 1.3 ; compute 2 5 2.2"),
    (
        "#compute (A) -> B",
        "_ ; A B arrow 0.2:0.2 1.5 ; compute 2 6 2.1",
    ),
    (
        "#compute (t) === t",
        "; t t same-point 0.2 1.5 ; compute 2 6 2.1",
    ),
    (
        "#compute (A) [TOP |-> x]",
        "; A Top x restrict 0.2 1.5|2.7 ; compute 2 9 3.1",
    ),
    ("#compute (x) as A", "; x A as 0.2 1.5 ; compute 2 6 2.1"),
    (
        "#compute (A) × B",
        "; A B product 0.2 1.5 ; compute 2 6 2.1",
    ),
    ("#compute (a , b)", "; a b pair 0.2 1.4 ; compute 2 6 2.1"),
    (
        "#compute first p x",
        "; p first 0.2 x app 1.1 2.3 ; compute 2 4 3.1",
    ),
    (
        "#compute f (second p)",
        "; f p second 1.4 app 0.1 2.3 ; compute 2 6 3.1",
    ),
    (
        "#compute refl_{x : A}",
        "; x A refl-at 0.2 1.4 ; compute 2 6 2.1",
    ),
    ("#compute refl_{x}", "; x refl-at 0.2 ; compute 2 4 1.1"),
    (
        "#compute recOR (a |-> b, c |-> d)",
        "; a b c d rec-or 0.3|1.5 2.7|3.9 ; compute 2 11 4.1",
    ),
    (
        "#compute idJ (a, b, c, d, e, f)",
        "; a b c d e f id-j 0.3 1.5 2.7 3.9 4.11 5.13 ; compute 2 15 6.1",
    ),
    // Several patterns are as many binders. The first function type stands at the bracket, each
    // other one at its pattern.
    (
        "#compute (x y : A) -> B",
        "x y ; A B arrow 1.3:0.5 1.8 arrow 0.2:0.5 2.3 ; compute 2 9 3.1",
    ),
    (
        "#compute (x : A | p) -> B",
        "x ; A p B arrow 0.2:0.4|1.6 2.9 ; compute 2 10 3.1",
    ),
    (
        "#compute \\ x ((y , z) : A) -> x",
        "x y z (1.5,2.7) ; A x lambda 0.2 3.4:0.10 1.13 ; compute 2 14 2.1",
    ),
    (
        "#compute Sigma ((x , y) : A), B",
        "x y (0.4,1.6) ; A B sigma 2.3:0.9 1.12 ; compute 2 13 2.1",
    ),
    // Commands.
    (
        "#def f uses (a b) (x : U) : U := x",
        "x ; Universe Universe x ; def 2 16 f.1 a.4 b.5 0.8:0.10 1.13 2.15",
    ),
    ("; #postulate f : U", "; Universe ; postulate 3 4 f.1 0.3"),
    ("#check x : U", "; x Universe ; check 2 4 0.1 1.3"),
    (
        "#section #section a #end #end b",
        "; ; section 2 1 section 3 2 a.1 end 5 1 end 6 2 b.1",
    ),
    ("#variables a b : U", "; Universe ; assume 2 5 a.1 b.2 0.4"),
    (
        "#set-option \"a\" = \"b\" #unset-option \"a\"",
        "; ; option 2 4 option 6 2",
    ),
];

// How a file begins that has one term.
const COMPUTE: &str = "#lang rzk-1 #compute ";

// What stands before, what stands between, what stands after; how often before and after, so that
// no token is too deep; and the token that is, where it is once more.
const DEEP: &[(&str, &str, &str, u64, u64)] = &[
    ("(", "x", ")", 200, 203),
    ("A [p |-> ", "A", "]", 200, 804),
    ("{x : 1 | p} -> ", "A", "", 200, 1603),
    ("A -> ", "A", "", 200, 404),
    ("\\ x -> ", "x", "", 100, 303),
    ("Sigma (x : A), ", "A", "", 199, 1397),
    ("a \\/ ", "a", "", 200, 404),
    ("a /\\ ", "a", "", 200, 404),
    ("a =_{", "A", "} a", 200, 404),
    ("refl_{", "a", "}", 200, 203),
    // A closing bracket gives the level back, and a command begins anew.
    ("(A -> A) ", "x", "", 3000, 0),
    ("A -> A #compute ", "A", "", 3000, 0),
    // Products don't raise the level.
    ("2 × ", "2", "", 3000, 0),
];

/// A text that begins so, with what stands before and after so many times.
pub fn repeated(
    alloc: Global,
    begin: &str,
    deep: &(&str, &str, &str, u64, u64),
    times: u64,
) -> Result<String, AllocError> {
    let mut source = String::from_str(alloc, begin)?;
    for _ in 0..times {
        source.push_str(deep.0)?;
    }
    source.push_str(deep.1)?;
    for _ in 0..times {
        source.push_str(deep.2)?;
    }
    Ok(source)
}

// The fault of a source, if there is one.
fn fault_of(alloc: Global, source: &str) -> Option<ParseFault> {
    match tokens(alloc, source) {
        Ok(found) => parse(alloc, source, found.as_slice()).err(),
        Err(_) => Some(ParseFault::OutOfMemory),
    }
}

#[test]
fn tokens_are_read_or_refused(rt: HostRuntime) -> Result<(), Fail> {
    for (source, place) in READ {
        let source = format!(in rt.alloc(); "#lang rzk-1 {source}")?;
        let wanted = place.map(|token| ParseFault::Syntax { token });
        assert_eq!(rt;
            fault_of(rt.alloc(), source.as_str()),
            wanted,
            "in {source}"
        );
    }
    for source in [
        "",
        "x",
        "rzk-1 #lang",
        "#def x : U := U",
        "\u{feff}#lang rzk-1",
    ] {
        assert_eq!(rt;
            fault_of(rt.alloc(), source),
            Some(ParseFault::NoLang),
            "in {source}"
        );
    }
    assert_eq!(rt;
        fault_of(rt.alloc(), "#lang"),
        Some(ParseFault::Syntax { token: 1 })
    );
    Ok(())
}

#[test]
fn trees_are_built(rt: HostRuntime) -> Result<(), Fail> {
    for (source, wanted) in TREES {
        let source = format!(in rt.alloc(); "#lang rzk-1 {source}")?;
        let found = tokens(rt.alloc(), source.as_str())
            .ok()
            .ok_or("the text has tokens")?;
        let commands = parse(rt.alloc(), source.as_str(), found.as_slice())
            .ok()
            .ok_or("the tokens are a file")?;
        let mut out = String::new(rt.alloc());
        show_commands(&mut out, &commands)?;
        assert_eq!(rt; out.as_str().trim_end(), *wanted, "in {source}");
    }
    Ok(())
}

#[test]
fn levels_end(rt: HostRuntime) -> Result<(), Fail> {
    for deep in DEEP {
        let source = repeated(rt.alloc(), COMPUTE, deep, deep.3)?;
        assert_eq!(rt;
            fault_of(rt.alloc(), source.as_str()),
            None,
            "with {}",
            deep.0
        );
        let source = repeated(rt.alloc(), COMPUTE, deep, deep.3.saturating_add(1))?;
        let wanted = if deep.4 == 0 {
            None
        } else {
            Some(ParseFault::TooNested { token: deep.4 })
        };
        assert_eq!(rt;
            fault_of(rt.alloc(), source.as_str()),
            wanted,
            "with {}",
            deep.0
        );
    }
    // A token too deep comes before an earlier fault of the grammar.
    let source = repeated(rt.alloc(), COMPUTE, &("= (", "", "", 0, 0), 201)?;
    assert_eq!(rt;
        fault_of(rt.alloc(), source.as_str()),
        Some(ParseFault::TooNested { token: 404 })
    );
    Ok(())
}
