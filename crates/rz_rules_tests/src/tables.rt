//! The kinds and the rows, as they are printed.

use rz_rules::{Condition, Kind, LETTERS, Label, Letter, Row, Scheme, Sort, Space, Symbol, Worded};
use std::alloc::{AllocError, Global};
use std::test::Fail;

/// The word of each kind, its sort, and what its kids are: `I` cube, `s` point, `p` tope, `a` term, `C` context, with
/// `t.` before what binds a cube variable and `x.` before what binds a term variable.
const KINDS: &[(&str, Kind, &str, &str)] = &[
    ("c1", Kind::CubeOne, "I", ""),
    ("c2", Kind::CubeTwo, "I", ""),
    ("cx", Kind::Product, "I", "I I"),
    ("pv", Kind::PointVariable, "s", ""),
    ("pstar", Kind::OnlyPoint, "s", ""),
    ("p0", Kind::Zero, "s", ""),
    ("p1", Kind::One, "s", ""),
    ("pp", Kind::PointPair, "s", "s s"),
    ("pl", Kind::PointLeft, "s", "s"),
    ("pr", Kind::PointRight, "s", "s"),
    ("ttop", Kind::Top, "p", ""),
    ("tbot", Kind::Bottom, "p", ""),
    ("tand", Kind::Conjunction, "p", "p p"),
    ("tor", Kind::Disjunction, "p", "p p"),
    ("teq", Kind::EqualPoints, "p", "I s s"),
    ("tle", Kind::AtMost, "p", "s s"),
    ("U", Kind::Universe, "a", ""),
    ("v", Kind::TermVariable, "a", ""),
    ("const", Kind::Constant, "a", "a a"),
    ("post", Kind::Postulate, "a", "a"),
    ("pi", Kind::Pi, "a", "a x.a"),
    ("lam", Kind::Lambda, "a", "a x.a x.a"),
    ("app", Kind::Application, "a", "a x.a a a"),
    ("sig", Kind::Sigma, "a", "a x.a"),
    ("pair", Kind::Pair, "a", "a x.a a a"),
    ("fst", Kind::First, "a", "a x.a a"),
    ("snd", Kind::Second, "a", "a x.a a"),
    ("id", Kind::Identity, "a", "a a a"),
    ("refl", Kind::Reflexivity, "a", "a a"),
    ("J", Kind::IdentityInduction, "a", "a a a a a a"),
    ("unit", Kind::UnitType, "a", ""),
    ("star", Kind::Star, "a", ""),
    ("ext", Kind::Extension, "a", "I t.p t.a t.p t.a"),
    ("xlam", Kind::ExtensionLambda, "a", "I t.p t.a t.p t.a t.a"),
    (
        "xapp",
        Kind::ExtensionApplication,
        "a",
        "I t.p t.a t.p t.a a s",
    ),
    ("rec", Kind::RecOr, "a", "a p p a a"),
    ("abort", Kind::RecBottom, "a", "a"),
    ("nil", Kind::EmptyContext, "C", ""),
    ("xcube", Kind::CubeEntry, "C", "C I"),
    ("xtope", Kind::TopeEntry, "C", "C p"),
    ("xterm", Kind::TermEntry, "C", "C a"),
];

/// Each row in words, written from the printed rules: its premises, its conclusion, and then what it asks beside them;
/// nothing where the row has a scheme of its own.
/// `few I` is a cube of few leaves, `over C P` a tope over a context, `point C I S` a point of a cube over a context; `n`
/// is the name that the row speaks of.
const ROWS: &[(&str, Row, &str)] = &[
    ("ctx-nil", Row::ContextNil, "formed nil"),
    (
        "ctx-cube",
        Row::ContextCube,
        "formed C formed xcube C I few I",
    ),
    (
        "ctx-tope",
        Row::ContextTope,
        "formed C formed xtope C P over C P",
    ),
    ("ctx-term", Row::ContextTerm, "has C A U formed xterm C A"),
    ("top", Row::Top, "formed C holds C ttop"),
    ("bot", Row::Bottom, "holds C tbot holds C P"),
    ("and-i", Row::And, "holds C P holds C Q holds C tand P Q"),
    ("and-l", Row::AndLeft, "holds C tand P Q holds C P"),
    ("and-r", Row::AndRight, "holds C tand P Q holds C Q"),
    ("or-l", Row::OrLeft, "holds C P holds C tor P Q"),
    ("or-r", Row::OrRight, "holds C Q holds C tor P Q"),
    (
        "or-e",
        Row::OrElimination,
        "holds C tor P Q holds xtope C P R holds xtope C Q R holds C R",
    ),
    ("eq-refl", Row::EqualReflexive, "formed C holds C teq I S S"),
    (
        "eq-sym",
        Row::EqualSymmetric,
        "holds C teq I S T holds C teq I T S",
    ),
    (
        "eq-trans",
        Row::EqualTransitive,
        "holds C teq I S T holds C teq I T W holds C teq I S W",
    ),
    (
        "eq-fst",
        Row::EqualFirst,
        "formed C holds C teq I pl pp S T S",
    ),
    (
        "eq-snd",
        Row::EqualSecond,
        "formed C holds C teq K pr pp S T T",
    ),
    (
        "eq-eta",
        Row::EqualEta,
        "formed C holds C teq cx I K S pp pl S pr S",
    ),
    ("eq-one", Row::EqualOne, "formed C holds C teq c1 S T"),
    (
        "eq-pair",
        Row::EqualPair,
        "holds C teq I S S1 holds C teq K T T1 holds C teq cx I K pp S T pp S1 T1",
    ),
    (
        "eq-left",
        Row::EqualLeft,
        "holds C teq cx I K S T holds C teq I pl S pl T",
    ),
    (
        "eq-right",
        Row::EqualRight,
        "holds C teq cx I K S T holds C teq K pr S pr T",
    ),
    (
        "le-eq",
        Row::AtMostEqual,
        "holds C teq c2 S T holds C tle S T",
    ),
    (
        "le-trans",
        Row::AtMostTransitive,
        "holds C tle S T holds C tle T W holds C tle S W",
    ),
    (
        "le-anti",
        Row::AtMostAntisymmetric,
        "holds C tle S T holds C tle T S holds C teq c2 S T",
    ),
    (
        "le-total",
        Row::AtMostTotal,
        "formed C holds C tor tle S T tle T S",
    ),
    ("le-zero", Row::ZeroAtMost, "formed C holds C tle p0 S"),
    ("le-one", Row::AtMostOne, "formed C holds C tle S p1"),
    (
        "zero-one",
        Row::ZeroIsNotOne,
        "holds C teq c2 p0 p1 holds C tbot",
    ),
    ("univ", Row::Universe, "formed C has C U U"),
    (
        "const",
        Row::Constant,
        "has nil A U has nil Y A formed C has C const n A Y A",
    ),
    (
        "post",
        Row::Postulate,
        "has nil A U formed C has C post n A A",
    ),
    ("pi", Row::Pi, "has C A U has xterm C A B U has C pi A B U"),
    (
        "sig",
        Row::Sigma,
        "has C A U has xterm C A B U has C sig A B U",
    ),
    (
        "lam",
        Row::Lambda,
        "has C pi A B U has xterm C A Y B has C lam A B Y pi A B",
    ),
    (
        "app",
        Row::Application,
        "has C F pi A B has C X A has C app A B F X put-x B X",
    ),
    (
        "pair",
        Row::Pair,
        "has C sig A B U has C X A has C Y put-x B X has C pair A B X Y sig A B",
    ),
    ("fst", Row::First, "has C H sig A B has C fst A B H A"),
    (
        "snd",
        Row::Second,
        "has C H sig A B has C snd A B H put-x B fst A B H",
    ),
    (
        "id",
        Row::Identity,
        "has C A U has C X A has C Y A has C id A X Y U",
    ),
    (
        "refl",
        Row::Reflexivity,
        "has C X A has C refl A X id A X X",
    ),
    (
        "J",
        Row::IdentityInduction,
        "has C M pi A pi id up-x A up-x X v 0 U has C G app id A X X U app A pi id up-x A up-x X v 0 U M X refl A X has C Y A has C H id A X Y has C J A X M G Y H app id A X Y U app A pi id up-x A up-x X v 0 U M Y H",
    ),
    ("unit", Row::UnitType, "formed C has C unit U"),
    ("star", Row::Star, "formed C has C star unit"),
    (
        "ext",
        Row::Extension,
        "has xtope xcube C I P A U has xtope xtope xcube C I P Q X A has C ext I P A Q X U",
    ),
    (
        "xlam",
        Row::ExtensionLambda,
        "has C ext I P A Q X U has xtope xcube C I P Y A same xtope xtope xcube C I P Q Y X A has C xlam I P A Q X Y ext I P A Q X",
    ),
    (
        "xapp",
        Row::ExtensionApplication,
        "has C F ext I P A Q X holds C put-t P S has C xapp I P A Q X F S put-t A S point C I S",
    ),
    (
        "rec",
        Row::RecOr,
        "has C A U holds C tor P Q has xtope C P X A has xtope C Q Y A same xtope C tand P Q X Y A has C rec A P Q X Y A",
    ),
    (
        "abort",
        Row::RecBottom,
        "has C A U holds C tbot has C abort A A",
    ),
    ("conv", Row::Conversion, "has C X A same C A B U has C X B"),
    ("q-refl", Row::SameReflexive, "has C X A same C X X A"),
    ("q-sym", Row::SameSymmetric, "same C X Y A same C Y X A"),
    (
        "q-trans",
        Row::SameTransitive,
        "same C X Y A same C Y Z A same C X Z A",
    ),
    (
        "q-conv",
        Row::SameConversion,
        "same C X Y A same C A B U same C X Y B",
    ),
    (
        "c-pi",
        Row::PiCongruence,
        "same C A A1 U same xterm C A B B1 U same C pi A B pi A1 B1 U",
    ),
    (
        "c-sig",
        Row::SigmaCongruence,
        "same C A A1 U same xterm C A B B1 U same C sig A B sig A1 B1 U",
    ),
    (
        "c-lam",
        Row::LambdaCongruence,
        "same C A A1 U same xterm C A B B1 U same xterm C A Y Y1 B same C lam A B Y lam A1 B1 Y1 pi A B",
    ),
    (
        "c-app",
        Row::ApplicationCongruence,
        "same C A A1 U same xterm C A B B1 U same C F F1 pi A B same C X X1 A same C app A B F X app A1 B1 F1 X1 put-x B X",
    ),
    (
        "c-pair",
        Row::PairCongruence,
        "same C A A1 U same xterm C A B B1 U same C X X1 A same C Y Y1 put-x B X same C pair A B X Y pair A1 B1 X1 Y1 sig A B",
    ),
    (
        "c-fst",
        Row::FirstCongruence,
        "same C A A1 U same xterm C A B B1 U same C H H1 sig A B same C fst A B H fst A1 B1 H1 A",
    ),
    (
        "c-snd",
        Row::SecondCongruence,
        "same C A A1 U same xterm C A B B1 U same C H H1 sig A B same C snd A B H snd A1 B1 H1 put-x B fst A B H",
    ),
    (
        "c-id",
        Row::IdentityCongruence,
        "same C A A1 U same C X X1 A same C Y Y1 A same C id A X Y id A1 X1 Y1 U",
    ),
    (
        "c-refl",
        Row::ReflexivityCongruence,
        "same C A A1 U same C X X1 A same C refl A X refl A1 X1 id A X X",
    ),
    (
        "c-J",
        Row::IdentityInductionCongruence,
        "same C A A1 U same C X X1 A same C M M1 pi A pi id up-x A up-x X v 0 U same C G G1 app id A X X U app A pi id up-x A up-x X v 0 U M X refl A X same C Y Y1 A same C H H1 id A X Y same C J A X M G Y H J A1 X1 M1 G1 Y1 H1 app id A X Y U app A pi id up-x A up-x X v 0 U M Y H",
    ),
    (
        "c-ext",
        Row::ExtensionCongruence,
        "holds xtope xcube C I P P1 holds xtope xcube C I P1 P same xtope xcube C I P A A1 U holds xtope xtope xcube C I P Q Q1 holds xtope xtope xcube C I P Q1 Q same xtope xtope xcube C I P Q X X1 A same C ext I P A Q X ext I P1 A1 Q1 X1 U",
    ),
    (
        "c-xlam",
        Row::ExtensionLambdaCongruence,
        "has C xlam I P A Q X Y ext I P A Q X holds xtope xcube C I P P1 holds xtope xcube C I P1 P same xtope xcube C I P A A1 U holds xtope xtope xcube C I P Q Q1 holds xtope xtope xcube C I P Q1 Q same xtope xtope xcube C I P Q X X1 A same xtope xcube C I P Y Y1 A same C xlam I P A Q X Y xlam I P1 A1 Q1 X1 Y1 ext I P A Q X",
    ),
    (
        "c-xapp",
        Row::ExtensionApplicationCongruence,
        "holds xtope xcube C I P P1 holds xtope xcube C I P1 P same xtope xcube C I P A A1 U holds xtope xtope xcube C I P Q Q1 holds xtope xtope xcube C I P Q1 Q same xtope xtope xcube C I P Q X X1 A same C F F1 ext I P A Q X holds C teq I S S1 holds C put-t P S same C xapp I P A Q X F S xapp I P1 A1 Q1 X1 F1 S1 put-t A S",
    ),
    (
        "c-rec",
        Row::RecOrCongruence,
        "has C rec A P Q X Y A same C A A1 U same xtope C P X X1 A same xtope C Q Y Y1 A same C rec A P Q X Y rec A1 P Q X1 Y1 A",
    ),
    (
        "c-abort",
        Row::RecBottomCongruence,
        "same C A A1 U holds C tbot same C abort A abort A1 A",
    ),
    (
        "q-beta",
        Row::Beta,
        "has xterm C A Y B has C X A same C app A B lam A B Y X put-x Y X put-x B X",
    ),
    (
        "q-eta",
        Row::Eta,
        "has C F pi A B same C F lam A B app up-x A up-x1 B up-x F v 0 pi A B",
    ),
    (
        "q-fst",
        Row::FirstBeta,
        "has C pair A B X Y sig A B same C fst A B pair A B X Y X A",
    ),
    (
        "q-snd",
        Row::SecondBeta,
        "has C pair A B X Y sig A B same C snd A B pair A B X Y Y put-x B X",
    ),
    (
        "q-pair",
        Row::PairEta,
        "has C H sig A B same C H pair A B fst A B H snd A B H sig A B",
    ),
    (
        "q-J",
        Row::IdentityInductionBeta,
        "has C J A X M G X refl A X B same C J A X M G X refl A X G B",
    ),
    ("q-unit", Row::UnitEta, "has C X unit same C X star unit"),
    (
        "q-delta",
        Row::Delta,
        "has C const n A Y A same C const n A Y Y A",
    ),
    (
        "q-xbeta",
        Row::ExtensionBeta,
        "has C xlam I P A Q X Y ext I P A Q X holds C put-t P S same C xapp I P A Q X xlam I P A Q X Y S put-t Y S put-t A S point C I S",
    ),
    (
        "q-xeta",
        Row::ExtensionEta,
        "has C F ext I P A Q X same C F xlam I P A Q X xapp I up-t1 P up-t1 A up-t1 Q up-t1 X up-t F pv 0 ext I P A Q X",
    ),
    (
        "q-face",
        Row::Face,
        "has C F ext I P A Q X holds C put-t P S holds C put-t Q S same C xapp I P A Q X F S put-t X S put-t A S point C I S",
    ),
    (
        "q-or-l",
        Row::RecOrLeft,
        "has C rec A P Q X Y A holds C P same C rec A P Q X Y X A",
    ),
    (
        "q-or-r",
        Row::RecOrRight,
        "has C rec A P Q X Y A holds C Q same C rec A P Q X Y Y A",
    ),
    (
        "q-or-eta",
        Row::RecOrEta,
        "has C Z A holds C tor P Q same C Z rec A P Q Z Z A",
    ),
    (
        "q-abort",
        Row::RecBottomEta,
        "has C X A holds C tbot same C X abort A A",
    ),
    (
        "q-cube",
        Row::PointReplacement,
        "has xtope xcube C I P X A holds C teq I S T holds C put-t P S same C put-t X S put-t X T put-t A S",
    ),
    ("hyp", Row::Hypothesis, ""),
    ("var", Row::Variable, ""),
    ("s-weak", Row::Weakening, ""),
    ("s-term", Row::TermCut, ""),
    ("s-cube", Row::CubeCut, ""),
    ("s-cut", Row::TopeCut, ""),
    ("s-ctx", Row::ContextOf, ""),
    ("s-type", Row::TypeOf, "has C X A has C A U"),
    ("s-left", Row::LeftSide, "same C X Y A has C X A"),
    ("s-right", Row::RightSide, "same C X Y A has C Y A"),
    ("s-inv", Row::Inversion, ""),
    ("s-own", Row::OwnType, ""),
];

/// The rows that have no text, each with its scheme.
const SCHEMES: &[(Row, Scheme)] = &[
    (Row::Hypothesis, Scheme::Hypothesis),
    (Row::Variable, Scheme::Variable),
    (Row::Weakening, Scheme::Weakening),
    (Row::TermCut, Scheme::TermCut),
    (Row::CubeCut, Scheme::CubeCut),
    (Row::TopeCut, Scheme::TopeCut),
    (Row::ContextOf, Scheme::ContextOf),
    (Row::Inversion, Scheme::Inversion),
    (Row::OwnType, Scheme::OwnType),
];

/// The letters by their numbers, each with its sort as in `KINDS`.
const LETTER_NAMES: &[(&str, &str)] = &[
    ("C", "C"),
    ("I", "I"),
    ("K", "I"),
    ("S", "s"),
    ("S1", "s"),
    ("T", "s"),
    ("T1", "s"),
    ("W", "s"),
    ("P", "p"),
    ("P1", "p"),
    ("Q", "p"),
    ("Q1", "p"),
    ("R", "p"),
    ("A", "a"),
    ("A1", "a"),
    ("B", "a"),
    ("B1", "a"),
    ("X", "a"),
    ("X1", "a"),
    ("Y", "a"),
    ("Y1", "a"),
    ("Z", "a"),
    ("F", "a"),
    ("F1", "a"),
    ("H", "a"),
    ("H1", "a"),
    ("M", "a"),
    ("M1", "a"),
    ("G", "a"),
    ("G1", "a"),
];

/// The letter of a sort.
fn letter_of(sort: Sort) -> &'static str {
    match sort {
        Sort::Cube => "I",
        Sort::Point => "s",
        Sort::Tope => "p",
        Sort::Term => "a",
        Sort::Context => "C",
    }
}

/// The name of a letter, where its sort is that of the table.
fn name_of(letter: Letter) -> &'static str {
    match LETTER_NAMES.get(letter.number as usize) {
        Some((name, sort)) if *sort == letter_of(letter.sort) => *name,
        _ => "?",
    }
}

/// What stands behind the word of a node.
fn label_of(label: Label) -> &'static str {
    match label {
        Label::Plain => "",
        Label::Index(0) => "0",
        Label::Index(_) => "?",
        Label::RowName => "n",
    }
}

/// The words of a symbol.
fn words_of(symbol: Symbol) -> [&'static str; 2] {
    match symbol {
        Symbol::Letter(letter) => [name_of(letter), ""],
        Symbol::Node(kind, label) => [kind.word(), label_of(label)],
        Symbol::Put(Space::Points) => ["put-t", ""],
        Symbol::Put(Space::Terms) => ["put-x", ""],
        Symbol::Shift(Space::Points, 0) => ["up-t", ""],
        Symbol::Shift(Space::Points, 1) => ["up-t1", ""],
        Symbol::Shift(Space::Terms, 0) => ["up-x", ""],
        Symbol::Shift(Space::Terms, 1) => ["up-x1", ""],
        Symbol::Shift(_, _) => ["?", ""],
        Symbol::Says(kind) => [kind.word(), ""],
    }
}

/// The words of a condition.
fn words_of_condition(condition: Condition) -> [&'static str; 4] {
    match condition {
        Condition::FewLeaves(cube) => ["few", name_of(cube), "", ""],
        Condition::TopeOver(context, tope) => ["over", name_of(context), name_of(tope), ""],
        Condition::PointOf(context, cube, point) => {
            ["point", name_of(context), name_of(cube), name_of(point)]
        }
    }
}

/// Adds words, with a space between two; an empty one adds nothing.
fn add(text: &mut String, words: &[&'static str]) -> Result<(), AllocError> {
    for word in words {
        if !text.is_empty() && !word.is_empty() {
            text.push(' ')?;
        }
        text.push_str(word)?;
    }
    Ok(())
}

/// What the kids of a kind are, in letters.
fn places(alloc: Global, kind: Kind) -> Result<String, AllocError> {
    let mut text = String::new(alloc);
    for slot in kind.form().kids {
        if !text.is_empty() {
            text.push(' ')?;
        }
        if slot.bound(Space::Points) > 0 {
            text.push_str("t.")?;
        }
        if slot.bound(Space::Terms) > 0 {
            text.push_str("x.")?;
        }
        text.push_str(letter_of(slot.sort))?;
    }
    Ok(text)
}

/// A row in words.
fn spelled(alloc: Global, row: Row) -> Result<String, AllocError> {
    let mut text = String::new(alloc);
    for symbol in row.text() {
        add(&mut text, &words_of(*symbol))?;
    }
    for condition in row.conditions() {
        add(&mut text, &words_of_condition(*condition))?;
    }
    Ok(text)
}

#[test]
fn kinds_have_their_forms(rt: HostRuntime) -> Result<(), Fail> {
    assert_eq!(rt; Kind::every().len(), KINDS.len());
    for (word, kind, sort, kids) in KINDS {
        assert_eq!(rt; kind.word(), *word);
        assert!(rt; Kind::of_word(word.as_bytes()) == Some(*kind));
        assert_eq!(rt; letter_of(kind.form().sort), *sort);
        let places = places(rt.alloc(), *kind)?;
        assert_eq!(rt; places.as_str(), *kids);
        let role = kind.form().role;
        let numbered = matches!(*kind, Kind::PointVariable | Kind::TermVariable);
        let named = matches!(*kind, Kind::Constant | Kind::Postulate);
        assert_eq!(rt; (role.is_numbered(), role.is_named()), (numbered, named));
    }
    assert!(rt; Kind::of_word(b"c22").is_none());
    Ok(())
}

#[test]
fn rows_are_as_printed(rt: HostRuntime) -> Result<(), Fail> {
    assert_eq!(rt;
        (Row::every().len(), LETTER_NAMES.len()),
        (ROWS.len(), LETTERS)
    );
    for (word, row, text) in ROWS {
        assert_eq!(rt; row.word(), *word);
        assert!(rt; Row::of_word(word.as_bytes()) == Some(*row));
        let words = spelled(rt.alloc(), *row)?;
        assert_eq!(rt; words.as_str(), *text, "{word}");
    }
    assert!(rt; Row::of_word(b"").is_none());
    for (row, scheme) in SCHEMES {
        assert_eq!(rt; row.scheme(), *scheme);
    }
    Ok(())
}

/// Each former's row has the former's word, but for the universe, whose row is `univ`.
#[test]
fn formers_have_their_rows(rt: HostRuntime) -> Result<(), Fail> {
    for (word, kind, sort, _) in KINDS {
        let row = Row::of_former(*kind).map(|row| row.word());
        let wanted = match (*word, *sort) {
            ("U", _) => Some("univ"),
            ("v", _) => None,
            (word, "a") => Some(word),
            _ => None,
        };
        assert_eq!(rt; row, wanted);
    }
    Ok(())
}
