use crate::parsing::repeated;
use crate::show::show_sequent;
use rz_lex::tokens;
use rz_syntax::{ParseFault, RawSequent, parse_sequent};
use std::alloc::{AllocError, Global};
use std::test::Fail;

// Sequents, and what they say: patterns; forms; names with their cubes; hypotheses; the goal.
const SEQUENTS: &[(&str, &str)] = &[
    ("| |- TOP", "; Top ; ; ; 0.2"),
    (
        "t s : 2 | t <= s, s <= t |- t === s",
        "; CubeTwo t s at-most 1.5 2.7 s t at-most 4.9 5.11 t s same-point 7.13 8.15 \
         ; t.0 s.1 : 0.3 ; 3.5 6.9 ; 9.13",
    ),
    (
        "t : 2 | |- t === 0_2 \\/ t === 1_2",
        "; CubeTwo t EndZero same-point 1.5 2.7 t EndOne same-point 4.9 5.11 or 3.5 6.9 \
         ; t.0 : 0.2 ; ; 7.5",
    ),
    (
        "| 0_2 === 1_2 |- BOT",
        "; EndZero EndOne same-point 0.1 1.3 Bottom ; ; 2.1 ; 3.5",
    ),
    (
        "a b : 2, p : (2 × 2) × 1 | |- first p === (a, b)",
        "; CubeTwo CubeTwo CubeTwo product 1.8 2.10 CubeOne product 3.8 4.13 p first 6.17 a b \
         pair 8.20 9.22 same-point 7.16 10.19 ; a.0 b.1 : 0.3 p.5 : 5.7 ; ; 11.16",
    ),
    // Comments, and other spellings.
    (
        "{- a -} t s : 2 -- b\n| t ≤ s ∧ s ≡ 0₂ ⊢ t ≡ 0₂",
        "; CubeTwo t s at-most 1.5 2.7 s EndZero same-point 4.9 5.11 and 3.5 6.9 \
         t EndZero same-point 8.13 9.15 ; t.0 s.1 : 0.3 ; 7.5 ; 10.13",
    ),
    // A name twice, several hypotheses, and terms that are no topes.
    (
        "t : 2, t : 1 | TOP, BOT, TOP |- t",
        "; CubeTwo CubeOne Top Bottom Top t ; t.0 : 0.2 t.4 : 1.6 ; 2.8 3.10 4.12 ; 5.14",
    ),
    (
        "| (x : A) -> B |- \\ y -> TOP",
        "x y ; A B arrow 0.2:0.4 1.7 Top lambda 1.10 3.12 ; ; 2.1 ; 4.9",
    ),
];

// Texts that are no sequent, and the number of the token at which that is clear.
const REFUSED: &[(&str, u64)] = &[
    ("", 0),
    ("|- TOP", 0),
    ("#lang rzk-1 | |- TOP", 0),
    ("_ : 2 | |- TOP", 0),
    ("(t , s) : 2 | |- TOP", 0),
    ("{t : 2} | |- TOP", 0),
    ("t , s : 2 | |- TOP", 1),
    ("| , |- TOP", 1),
    ("|", 1),
    ("t s | TOP |- TOP", 2),
    ("t : | |- TOP", 2),
    ("| TOP TOP", 3),
    ("t : 2 |- TOP", 3),
    ("| |- TOP |- TOP", 3),
    ("| |- TOP , TOP", 3),
    ("| |- TOP #check TOP : TOPE", 3),
    ("t : 2 , | |- TOP", 4),
    ("t : 2 | |-", 5),
    ("t : 2 | TOP | TOP |- TOP", 5),
    ("t : 2 | t <= |- TOP", 6),
    ("t : 2 | |- TOP TOP ;", 7),
    ("t : 2 | TOP , |- TOP", 6),
    ("t : 2 | (x : A | TOP |- TOP", 10),
];

// How a text begins; what stands then before, between and after, how often before and after, so that
// no token is too deep; and the token that is, where it is once more.
const DEEP: &[(&str, (&str, &str, &str, u64, u64))] = &[
    ("| |- ", ("(", "TOP", ")", 200, 202)),
    ("| |- ", ("a /\\ ", "a", "", 200, 403)),
    // Between hypotheses nothing lowers the level, and closing brackets do.
    ("| ", ("a /\\ a, ", "a |- a", "", 200, 802)),
    ("| ", ("(a /\\ a), ", "a |- a", "", 3000, 0)),
];

// The sequent that a text is, or its fault.
fn sequent_of(alloc: Global, source: &str) -> Result<RawSequent, ParseFault> {
    match tokens(alloc, source) {
        Ok(found) => parse_sequent(alloc, source, found.as_slice()),
        Err(_) => Err(ParseFault::OutOfMemory),
    }
}

// What a text says as a sequent.
fn says(alloc: Global, source: &str) -> Result<String, AllocError> {
    let mut out = String::new(alloc);
    if let Ok(sequent) = sequent_of(alloc, source) {
        show_sequent(&mut out, &sequent)?;
    }
    Ok(out)
}

#[test]
fn sequents_are_read_or_refused(rt: HostRuntime) -> Result<(), Fail> {
    for (source, wanted) in SEQUENTS {
        let out = says(rt.alloc(), source)?;
        assert_eq!(rt; out.as_str().trim_end(), *wanted, "in {source}");
    }
    for (source, token) in REFUSED {
        assert_eq!(rt;
            sequent_of(rt.alloc(), source).err(),
            Some(ParseFault::Syntax { token: *token }),
            "in {source}"
        );
    }
    for (begin, deep) in DEEP {
        let source = repeated(rt.alloc(), begin, deep, deep.3)?;
        assert_eq!(rt;
            sequent_of(rt.alloc(), source.as_str()).err(),
            None,
            "with {}",
            deep.0
        );
        let source = repeated(rt.alloc(), begin, deep, deep.3.saturating_add(1))?;
        let wanted = if deep.4 == 0 {
            None
        } else {
            Some(ParseFault::TooNested { token: deep.4 })
        };
        assert_eq!(rt;
            sequent_of(rt.alloc(), source.as_str()).err(),
            wanted,
            "with {}",
            deep.0
        );
    }
    // A token too deep comes before an earlier fault of the grammar.
    let source = repeated(rt.alloc(), "|- ", &("(", "", "", 0, 0), 201)?;
    assert_eq!(rt;
        sequent_of(rt.alloc(), source.as_str()).err(),
        Some(ParseFault::TooNested { token: 201 })
    );
    Ok(())
}
