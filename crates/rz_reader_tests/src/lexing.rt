use rz_lex::{
    FIXED, LexFault, Tok, Token, Tokens, one_ending, one_reading, tokens, whole_characters,
};
use std::alloc::Global;
use std::process::Abort;
use std::test::Fail;

// What the tokens of a text are, each with its bytes.
const READ: &[(&str, &[(Tok, &str)])] = &[
    ("", &[]),
    (" \t\r\n", &[]),
    ("t===s", &[(Tok::Name, "t===s")]),
    (
        "t === s",
        &[(Tok::Name, "t"), (Tok::SamePoint, "==="), (Tok::Name, "s")],
    ),
    ("x:", &[(Tok::Name, "x:")]),
    (":x", &[(Tok::Name, ":x")]),
    (
        "x : U",
        &[(Tok::Name, "x"), (Tok::Colon, ":"), (Tok::Universe, "U")],
    ),
    (
        "x := U",
        &[
            (Tok::Name, "x"),
            (Tok::ColonEqual, ":="),
            (Tok::Universe, "U"),
        ],
    ),
    (":==", &[(Tok::Name, ":==")]),
    ("is-segal Δ¹", &[(Tok::Name, "is-segal"), (Tok::Name, "Δ¹")]),
    (
        "0 12 a.b x? x! a-b",
        &[
            (Tok::Name, "0"),
            (Tok::Name, "12"),
            (Tok::Name, "a.b"),
            (Tok::Name, "x?"),
            (Tok::Name, "x!"),
            (Tok::Name, "a-b"),
        ],
    ),
    (
        "A→B 2×2 →x",
        &[(Tok::Name, "A→B"), (Tok::Name, "2×2"), (Tok::Name, "→x")],
    ),
    (
        "2 × 2",
        &[
            (Tok::CubeTwo, "2"),
            (Tok::Product, "×"),
            (Tok::CubeTwo, "2"),
        ],
    ),
    (
        "| |- |-> |",
        &[
            (Tok::Bar, "|"),
            (Tok::Turnstile, "|-"),
            (Tok::MapsTo, "|->"),
            (Tok::Bar, "|"),
        ],
    ),
    (
        "||->|-|",
        &[
            (Tok::Bar, "|"),
            (Tok::MapsTo, "|->"),
            (Tok::Turnstile, "|-"),
            (Tok::Bar, "|"),
        ],
    ),
    (
        "= =_{ =_ =",
        &[
            (Tok::Equal, "="),
            (Tok::EqualAt, "=_{"),
            (Tok::Name, "=_"),
            (Tok::Equal, "="),
        ],
    ),
    (
        "x=_{A}y",
        &[
            (Tok::Name, "x=_"),
            (Tok::OpenBrace, "{"),
            (Tok::Name, "A"),
            (Tok::CloseBrace, "}"),
            (Tok::Name, "y"),
        ],
    ),
    (
        "x =_ {A}",
        &[
            (Tok::Name, "x"),
            (Tok::Name, "=_"),
            (Tok::OpenBrace, "{"),
            (Tok::Name, "A"),
            (Tok::CloseBrace, "}"),
        ],
    ),
    (
        "refl refl_{ refl_ refl{",
        &[
            (Tok::Refl, "refl"),
            (Tok::ReflAt, "refl_{"),
            (Tok::Name, "refl_"),
            (Tok::Refl, "refl"),
            (Tok::OpenBrace, "{"),
        ],
    ),
    (
        "* *_1 *_ **",
        &[
            (Tok::Product, "*"),
            (Tok::Star, "*_1"),
            (Tok::Name, "*_"),
            (Tok::Name, "**"),
        ],
    ),
    (
        "1 1_2 1_ 1₂ 1_1",
        &[
            (Tok::CubeOne, "1"),
            (Tok::EndOne, "1_2"),
            (Tok::Name, "1_"),
            (Tok::EndOne, "1₂"),
            (Tok::Name, "1_1"),
        ],
    ),
    (
        "_ __ _x",
        &[(Tok::Blank, "_"), (Tok::Name, "__"), (Tok::Name, "_x")],
    ),
    (
        "/\\ /\\/ \\/ \\",
        &[
            (Tok::And, "/\\"),
            (Tok::And, "/\\"),
            (Tok::Name, "/"),
            (Tok::Or, "\\/"),
            (Tok::Lambda, "\\"),
        ],
    ),
    (
        "\\x→\\ x",
        &[
            (Tok::Lambda, "\\"),
            (Tok::Name, "x→"),
            (Tok::Lambda, "\\"),
            (Tok::Name, "x"),
        ],
    ),
    ("/ /x", &[(Tok::Name, "/"), (Tok::Name, "/x")]),
    ("<=x", &[(Tok::AtMost, "<="), (Tok::Name, "x")]),
    ("->x", &[(Tok::Arrow, "->"), (Tok::Name, "x")]),
    (
        "#def #define #defx",
        &[
            (Tok::DefCommand, "#def"),
            (Tok::DefineCommand, "#define"),
            (Tok::DefCommand, "#def"),
            (Tok::Name, "x"),
        ],
    ),
    (
        "#compute-whnf #compute-nf #computes",
        &[
            (Tok::ComputeWhnfCommand, "#compute-whnf"),
            (Tok::ComputeNfCommand, "#compute-nf"),
            (Tok::ComputeCommand, "#compute"),
            (Tok::Name, "s"),
        ],
    ),
    (
        "#variables #variable",
        &[
            (Tok::VariablesCommand, "#variables"),
            (Tok::VariableCommand, "#variable"),
        ],
    ),
    (
        "#lang rzk-1 rzk-2",
        &[
            (Tok::LangCommand, "#lang"),
            (Tok::RzkOne, "rzk-1"),
            (Tok::Name, "rzk-2"),
        ],
    ),
    (
        "(t,s);[x]{y}",
        &[
            (Tok::OpenParen, "("),
            (Tok::Name, "t"),
            (Tok::Comma, ","),
            (Tok::Name, "s"),
            (Tok::CloseParen, ")"),
            (Tok::Semicolon, ";"),
            (Tok::OpenBracket, "["),
            (Tok::Name, "x"),
            (Tok::CloseBracket, "]"),
            (Tok::OpenBrace, "{"),
            (Tok::Name, "y"),
            (Tok::CloseBrace, "}"),
        ],
    ),
    ("--> x\ny", &[(Tok::Name, "y")]),
    ("a -- b", &[(Tok::Name, "a")]),
    ("--", &[]),
    ("-- a\rb\nc", &[(Tok::Name, "c")]),
    ("x--y", &[(Tok::Name, "x--y")]),
    ("x{--}y", &[(Tok::Name, "x"), (Tok::Name, "y")]),
    ("{--}", &[]),
    ("{- {- -} x", &[(Tok::Name, "x")]),
    ("{-> -}{", &[(Tok::OpenBrace, "{")]),
    ("{- \n -- \" -}x", &[(Tok::Name, "x")]),
    ("-- {-\nx", &[(Tok::Name, "x")]),
    ("\"\"", &[(Tok::Text, "\"\"")]),
    ("\"a b\"x", &[(Tok::Text, "\"a b\""), (Tok::Name, "x")]),
    (
        "x\"-- {-\ty\r\"",
        &[(Tok::Name, "x"), (Tok::Text, "\"-- {-\ty\r\"")],
    ),
    ("\"a\"\"b\"", &[(Tok::Text, "\"a\""), (Tok::Text, "\"b\"")]),
    (
        "a\u{a0}b c\u{b}d \u{feff}U",
        &[
            (Tok::Name, "a\u{a0}b"),
            (Tok::Name, "c\u{b}d"),
            (Tok::Name, "\u{feff}U"),
        ],
    ),
    (
        "Ux xU U U",
        &[
            (Tok::Name, "Ux"),
            (Tok::Name, "xU"),
            (Tok::Universe, "U"),
            (Tok::Universe, "U"),
        ],
    ),
];

// Each token that is always spelled alike, in each of its spellings.
const SPELLED: &[(Tok, &str)] = &[
    (Tok::Universe, "U"),
    (Tok::CubeSort, "CUBE"),
    (Tok::TopeSort, "TOPE"),
    (Tok::CubeOne, "1"),
    (Tok::CubeTwo, "2"),
    (Tok::Product, "*"),
    (Tok::Product, "×"),
    (Tok::Star, "*_1"),
    (Tok::Star, "⋆₁"),
    (Tok::EndZero, "0_2"),
    (Tok::EndZero, "0₂"),
    (Tok::EndOne, "1_2"),
    (Tok::EndOne, "1₂"),
    (Tok::Top, "TOP"),
    (Tok::Top, "⊤"),
    (Tok::Bottom, "BOT"),
    (Tok::Bottom, "⊥"),
    (Tok::And, "/\\"),
    (Tok::And, "∧"),
    (Tok::Or, "\\/"),
    (Tok::Or, "∨"),
    (Tok::SamePoint, "==="),
    (Tok::SamePoint, "≡"),
    (Tok::AtMost, "<="),
    (Tok::AtMost, "≤"),
    (Tok::Arrow, "->"),
    (Tok::Arrow, "→"),
    (Tok::Sigma, "Sigma"),
    (Tok::Sigma, "Σ"),
    (Tok::Sigma, "∑"),
    (Tok::Lambda, "\\"),
    (Tok::Equal, "="),
    (Tok::EqualAt, "=_{"),
    (Tok::UnitType, "Unit"),
    (Tok::UnitTerm, "unit"),
    (Tok::Refl, "refl"),
    (Tok::ReflAt, "refl_{"),
    (Tok::IdJ, "idJ"),
    (Tok::RecOr, "recOR"),
    (Tok::RecBot, "recBOT"),
    (Tok::First, "first"),
    (Tok::First, "π₁"),
    (Tok::Second, "second"),
    (Tok::Second, "π₂"),
    (Tok::As, "as"),
    (Tok::Colon, ":"),
    (Tok::ColonEqual, ":="),
    (Tok::Comma, ","),
    (Tok::Semicolon, ";"),
    (Tok::Bar, "|"),
    (Tok::OpenParen, "("),
    (Tok::CloseParen, ")"),
    (Tok::OpenBracket, "["),
    (Tok::CloseBracket, "]"),
    (Tok::OpenBrace, "{"),
    (Tok::CloseBrace, "}"),
    (Tok::MapsTo, "|->"),
    (Tok::MapsTo, "↦"),
    (Tok::Turnstile, "|-"),
    (Tok::Turnstile, "⊢"),
    (Tok::Blank, "_"),
    (Tok::Uses, "uses"),
    (Tok::RzkOne, "rzk-1"),
    (Tok::LangCommand, "#lang"),
    (Tok::DefCommand, "#def"),
    (Tok::DefineCommand, "#define"),
    (Tok::PostulateCommand, "#postulate"),
    (Tok::CheckCommand, "#check"),
    (Tok::ComputeCommand, "#compute"),
    (Tok::ComputeWhnfCommand, "#compute-whnf"),
    (Tok::ComputeNfCommand, "#compute-nf"),
    (Tok::SectionCommand, "#section"),
    (Tok::EndCommand, "#end"),
    (Tok::AssumeCommand, "#assume"),
    (Tok::VariableCommand, "#variable"),
    (Tok::VariablesCommand, "#variables"),
    (Tok::SetOptionCommand, "#set-option"),
    (Tok::UnsetOptionCommand, "#unset-option"),
];

// Where the first bad token of a text stands.
const REFUSED: &[(&str, u64, u64)] = &[
    ("a ?", 1, 3),
    ("?", 1, 1),
    ("!x", 1, 1),
    (".x", 1, 1),
    ("-x", 1, 1),
    ("<", 1, 1),
    (">", 1, 1),
    ("#", 1, 1),
    ("#Def", 1, 1),
    ("A->B", 1, 3),
    ("#compute-x", 1, 9),
    ("#compute A->B", 1, 12),
    ("#compute {-} U", 1, 10),
    ("{-}", 1, 1),
    ("{-", 1, 1),
    ("x\n  {- {- -\n", 2, 3),
    ("\"", 1, 1),
    ("x \"a\nb\"", 1, 3),
    ("\"a\" \"b", 1, 5),
    ("∑ ⋆₁\tλ\r ?", 1, 9),
    ("-- Δ\n\u{feff}e\u{301} <", 2, 5),
    ("\"Δ\" {- →\n→ -}→ ?", 2, 7),
];

// The lines and columns of the tokens of a text.
const PLACED: &[(&str, &[(u64, u64)])] = &[
    ("a\n b\n\n  c", &[(1, 1), (2, 2), (4, 3)]),
    ("Δ¹ → x", &[(1, 1), (1, 4), (1, 6)]),
    ("{-\n-}x\ty", &[(2, 3), (2, 5)]),
    ("𝔸 b\r\nc", &[(1, 1), (1, 3), (2, 1)]),
];

fn reads(rt: &impl Abort, alloc: Global, source: &str, wanted: &[(Tok, &str)]) -> Result<(), Fail> {
    let found = tokens(alloc, source).ok().ok_or("the text has tokens")?;
    assert_eq!(rt; found.len(), wanted.len() as u64, "in {source:?}");
    for (token, (kind, text)) in found.as_slice().iter().zip(wanted) {
        assert_eq!(rt; token.kind, *kind, "in {source:?}");
        let bytes = source
            .as_bytes()
            .get(token.from as usize..token.to as usize);
        assert_eq!(rt; bytes, Some(text.as_bytes()), "in {source:?}");
    }
    Ok(())
}

#[test]
fn texts_are_read(rt: HostRuntime) -> Result<(), Fail> {
    for (source, wanted) in READ {
        reads(&rt, rt.alloc(), source, wanted)?;
    }
    for spelled in SPELLED {
        reads(&rt, rt.alloc(), spelled.1, &[*spelled])?;
    }
    assert_eq!(rt; FIXED.len(), SPELLED.len());
    Ok(())
}

#[test]
fn texts_are_refused(rt: HostRuntime) {
    for (source, line, column) in REFUSED {
        let fault = tokens(rt.alloc(), source).err();
        let wanted = LexFault::BadToken {
            line: *line,
            column: *column,
        };
        assert_eq!(rt; fault, Some(wanted), "in {source:?}");
    }
}

#[test]
fn tokens_are_placed(rt: HostRuntime) -> Result<(), Fail> {
    for (source, places) in PLACED {
        let found = tokens(rt.alloc(), source)
            .ok()
            .ok_or("the text has tokens")?;
        assert_eq!(rt; found.len(), places.len() as u64, "in {source:?}");
        for (token, place) in found.as_slice().iter().zip(*places) {
            assert_eq!(rt; (token.line, token.column), *place, "in {source:?}");
        }
    }
    one_reading();
    one_ending();
    whole_characters();
    Ok(())
}

#[test]
fn lists_grow(rt: HostRuntime) -> Result<(), Fail> {
    let mut list = Tokens::new(rt.alloc());
    let token = Token {
        kind: Tok::Name,
        from: 0,
        to: 1,
        line: 1,
        column: 1,
    };
    assert_eq!(rt; list.push(token), Ok(()));
    assert_eq!(rt; list.len(), 1);
    assert_eq!(rt; list.get(0).copied(), Some(token));
    assert_eq!(rt; list.get(1).copied(), None);
    Ok(())
}
