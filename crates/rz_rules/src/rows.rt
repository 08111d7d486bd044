//! The row table: each rule of the theory as data.
//!
//! A row's text stands in prefix notation: the premises in their order, and then the conclusion. A letter stands for
//! any tree of its sort, the same at each of its places. Beside its text a row may have conditions on the trees of its
//! letters. A few structural rows have a scheme of their own in place of a text: their conclusion is computed from a
//! premise, from the line's number, and from the entries of a context. The tables are `contexts`, `topes`, `typing`,
//! `congruence`, `computation` and `structural`.

ghost use Rattle.std.specs.Prelude.{◌≡◌};
ghost use Rattle.rz_rules.specs.Table.{IsRule, rule_of, typing_row, word_of_row, all_rows, row_words_are_distinct};

use crate::kinds::Kind;
use crate::symbols::{Condition, Symbol};
use crate::words::Worded;

pub mod computation;
pub mod congruence;
pub mod contexts;
pub mod structural;
pub mod topes;
pub mod typing;

/// How a rule leads from its premises to its conclusion.
///
/// "The number" is that of the line, and says where a context is cut: so many of its entries stand further in.
#[derive(Clone, Copy, Debug, PartialEq, Eq)]
pub enum Scheme {
    /// Its text spells the premises and the conclusion.
    Text,
    /// The tope of an entry holds. The number tells which.
    Hypothesis,
    /// The variable of an entry has the entry's type.
    Variable,
    /// A judgment holds with one entry more, at the number.
    Weakening,
    /// A term takes the place of the term entry at the number.
    TermCut,
    /// A point takes the place of the cube entry at the number.
    CubeCut,
    /// The tope entry at the number goes, since its tope holds.
    TopeCut,
    /// The context of a judgment is formed.
    ContextOf,
    /// What the typing row of a term's former asks for. The number tells which of its premises.
    Inversion,
    /// A term's type is the type that the typing row of its former gives.
    OwnType,
}

/// A rule: its word in a derivation file, its premises and then its conclusion, and what it asks beside its premises. The
/// text of a rule with a scheme of its own is empty.
pub type Rule = (&'static str, &'static [Symbol], &'static [Condition]);

/// The rows. The word in a derivation file stands first in each line.
#[derive(Clone, Copy, Debug, PartialEq, Eq)]
pub enum Row {
    /// `ctx-nil`: the context without entries is formed.
    ContextNil,
    /// `ctx-cube`: a formed context and a cube entry of at most 64 leaves are a formed context.
    ContextCube,
    /// `ctx-tope`: a formed context and a tope over it are a formed context.
    ContextTope,
    /// `ctx-term`: a context and an entry of a type in it are a formed context.
    ContextTerm,
    /// `top`: the tope that always holds does.
    Top,
    /// `bot`: where the tope that never holds does, each tope holds.
    Bottom,
    /// `and-i`: two topes that hold have a conjunction that holds.
    And,
    /// `and-l`: the first part of a conjunction that holds does.
    AndLeft,
    /// `and-r`: the second part of a conjunction that holds does.
    AndRight,
    /// `or-l`: a disjunction holds where its first part does.
    OrLeft,
    /// `or-r`: a disjunction holds where its second part does.
    OrRight,
    /// `or-e`: a tope holds where a disjunction does, and the tope under each of its parts.
    OrElimination,
    /// `eq-refl`: a point equals itself.
    EqualReflexive,
    /// `eq-sym`: equality of points is symmetric.
    EqualSymmetric,
    /// `eq-trans`: equality of points is transitive.
    EqualTransitive,
    /// `eq-fst`: the first part of a pair of points is its first point.
    EqualFirst,
    /// `eq-snd`: the second part of a pair of points is its second point.
    EqualSecond,
    /// `eq-eta`: a point of a product is the pair of its parts.
    EqualEta,
    /// `eq-one`: two points of the cube with one point are equal.
    EqualOne,
    /// `eq-pair`: pairs of equal points are equal.
    EqualPair,
    /// `eq-left`: equal points of a product have equal first parts.
    EqualLeft,
    /// `eq-right`: equal points of a product have equal second parts.
    EqualRight,
    /// `le-eq`: of two equal points of the directed interval the first is at most the second.
    AtMostEqual,
    /// `le-trans`: the order of the directed interval is transitive.
    AtMostTransitive,
    /// `le-anti`: the order of the directed interval is antisymmetric.
    AtMostAntisymmetric,
    /// `le-total`: of two points of the directed interval one is at most the other.
    AtMostTotal,
    /// `le-zero`: the first end of the directed interval is at most each of its points.
    ZeroAtMost,
    /// `le-one`: each point of the directed interval is at most its last end.
    AtMostOne,
    /// `zero-one`: the ends of the directed interval are not equal.
    ZeroIsNotOne,
    /// `univ`: the universe lies in itself.
    Universe,
    /// `const`: a constant whose type and body are derived without entries has its type.
    Constant,
    /// `post`: a postulate whose type is derived without entries has its type.
    Postulate,
    /// `pi`: functions from a type into a family over it form a type.
    Pi,
    /// `sig`: pairs over a family form a type.
    Sigma,
    /// `lam`: a term of the family under a variable gives a function.
    Lambda,
    /// `app`: a function at an argument lies in the family at the argument.
    Application,
    /// `pair`: two terms, the second in the family at the first, form a pair.
    Pair,
    /// `fst`: a pair has a first part.
    First,
    /// `snd`: a pair has a second part, in the family at the first.
    Second,
    /// `id`: two terms of a type have an identity type.
    Identity,
    /// `refl`: a term is identical to itself.
    Reflexivity,
    /// `J`: induction along an identity: from the case of reflexivity at a motive.
    IdentityInduction,
    /// `unit`: the type with one term is a type.
    UnitType,
    /// `star`: the only term of the type with one term.
    Star,
    /// `ext`: a family on a shape and a term of it on a face form an extension type.
    Extension,
    /// `xlam`: a term of the family on the shape that agrees with the face's term on the face gives a function on the shape.
    ExtensionLambda,
    /// `xapp`: a function on a shape at a point of the shape lies in the family at the point.
    ExtensionApplication,
    /// `rec`: terms under two topes, equal under both, give a term where one of the topes holds.
    RecOr,
    /// `abort`: where the tope that never holds does, each type has a term.
    RecBottom,
    /// `conv`: a term of a type is a term of each type that equals it.
    Conversion,
    /// `q-refl`: a term equals itself.
    SameReflexive,
    /// `q-sym`: equality of terms is symmetric.
    SameSymmetric,
    /// `q-trans`: equality of terms is transitive.
    SameTransitive,
    /// `q-conv`: terms that are equal at a type are equal at each type that equals it.
    SameConversion,
    /// `c-pi`: equal types and families form equal types of functions.
    PiCongruence,
    /// `c-sig`: equal types and families form equal types of pairs.
    SigmaCongruence,
    /// `c-lam`: functions with equal parts are equal.
    LambdaCongruence,
    /// `c-app`: applications with equal parts are equal.
    ApplicationCongruence,
    /// `c-pair`: pairs with equal parts are equal.
    PairCongruence,
    /// `c-fst`: equal pairs have equal first parts.
    FirstCongruence,
    /// `c-snd`: equal pairs have equal second parts.
    SecondCongruence,
    /// `c-id`: equal terms of equal types have equal identity types.
    IdentityCongruence,
    /// `c-refl`: equal terms have equal reflexivities.
    ReflexivityCongruence,
    /// `c-J`: inductions along identities with equal parts are equal.
    IdentityInductionCongruence,
    /// `c-ext`: extension types over one cube with equivalent topes and equal parts are equal.
    ExtensionCongruence,
    /// `c-xlam`: functions on a shape with equal parts are equal.
    ExtensionLambdaCongruence,
    /// `c-xapp`: equal functions on a shape at equal points are equal.
    ExtensionApplicationCongruence,
    /// `c-rec`: eliminations of one disjunction with equal terms are equal.
    RecOrCongruence,
    /// `c-abort`: where the tope that never holds does, equal types have equal terms by it.
    RecBottomCongruence,
    /// `q-beta`: a function at an argument is its body there.
    Beta,
    /// `q-eta`: a function is the function of its values.
    Eta,
    /// `q-fst`: the first part of a pair is its first term.
    FirstBeta,
    /// `q-snd`: the second part of a pair is its second term.
    SecondBeta,
    /// `q-pair`: a term of a type of pairs is the pair of its parts.
    PairEta,
    /// `q-J`: induction along a reflexivity is its case.
    IdentityInductionBeta,
    /// `q-unit`: each term of the type with one term is that term.
    UnitEta,
    /// `q-delta`: a constant is its body.
    Delta,
    /// `q-xbeta`: a function on a shape at a point is its body there.
    ExtensionBeta,
    /// `q-xeta`: a function on a shape is the function of its values.
    ExtensionEta,
    /// `q-face`: a function on a shape agrees with the face's term on the face.
    Face,
    /// `q-or-l`: where the first tope holds, the elimination of a disjunction is its first term.
    RecOrLeft,
    /// `q-or-r`: where the second tope holds, the elimination of a disjunction is its second term.
    RecOrRight,
    /// `q-or-eta`: where a disjunction holds, a term is the elimination with it under both topes.
    RecOrEta,
    /// `q-abort`: where the tope that never holds does, each term is that of its type by it.
    RecBottomEta,
    /// `q-cube`: a term at a point is the term at each point that equals it.
    PointReplacement,
    /// `hyp`: the tope of an entry holds.
    Hypothesis,
    /// `var`: a variable has the type of its entry.
    Variable,
    /// `s-weak`: a judgment holds under one entry more.
    Weakening,
    /// `s-term`: a judgment holds with a term in the place of a term entry.
    TermCut,
    /// `s-cube`: a judgment holds with a point in the place of a cube entry.
    CubeCut,
    /// `s-cut`: a judgment holds without a tope entry whose tope holds.
    TopeCut,
    /// `s-ctx`: the context of a judgment is formed.
    ContextOf,
    /// `s-type`: the type of a term is a type.
    TypeOf,
    /// `s-left`: the left side of an equality has its type.
    LeftSide,
    /// `s-right`: the right side of an equality has its type.
    RightSide,
    /// `s-inv`: what the typing row of a term's former asks for.
    Inversion,
    /// `s-own`: the type of a term equals the one that the typing row of its former gives.
    OwnType,
}

/// The rows, in the order of the table.
pub const ROWS: &[Row] = &[
    Row::ContextNil,
    Row::ContextCube,
    Row::ContextTope,
    Row::ContextTerm,
    Row::Top,
    Row::Bottom,
    Row::And,
    Row::AndLeft,
    Row::AndRight,
    Row::OrLeft,
    Row::OrRight,
    Row::OrElimination,
    Row::EqualReflexive,
    Row::EqualSymmetric,
    Row::EqualTransitive,
    Row::EqualFirst,
    Row::EqualSecond,
    Row::EqualEta,
    Row::EqualOne,
    Row::EqualPair,
    Row::EqualLeft,
    Row::EqualRight,
    Row::AtMostEqual,
    Row::AtMostTransitive,
    Row::AtMostAntisymmetric,
    Row::AtMostTotal,
    Row::ZeroAtMost,
    Row::AtMostOne,
    Row::ZeroIsNotOne,
    Row::Universe,
    Row::Constant,
    Row::Postulate,
    Row::Pi,
    Row::Sigma,
    Row::Lambda,
    Row::Application,
    Row::Pair,
    Row::First,
    Row::Second,
    Row::Identity,
    Row::Reflexivity,
    Row::IdentityInduction,
    Row::UnitType,
    Row::Star,
    Row::Extension,
    Row::ExtensionLambda,
    Row::ExtensionApplication,
    Row::RecOr,
    Row::RecBottom,
    Row::Conversion,
    Row::SameReflexive,
    Row::SameSymmetric,
    Row::SameTransitive,
    Row::SameConversion,
    Row::PiCongruence,
    Row::SigmaCongruence,
    Row::LambdaCongruence,
    Row::ApplicationCongruence,
    Row::PairCongruence,
    Row::FirstCongruence,
    Row::SecondCongruence,
    Row::IdentityCongruence,
    Row::ReflexivityCongruence,
    Row::IdentityInductionCongruence,
    Row::ExtensionCongruence,
    Row::ExtensionLambdaCongruence,
    Row::ExtensionApplicationCongruence,
    Row::RecOrCongruence,
    Row::RecBottomCongruence,
    Row::Beta,
    Row::Eta,
    Row::FirstBeta,
    Row::SecondBeta,
    Row::PairEta,
    Row::IdentityInductionBeta,
    Row::UnitEta,
    Row::Delta,
    Row::ExtensionBeta,
    Row::ExtensionEta,
    Row::Face,
    Row::RecOrLeft,
    Row::RecOrRight,
    Row::RecOrEta,
    Row::RecBottomEta,
    Row::PointReplacement,
    Row::Hypothesis,
    Row::Variable,
    Row::Weakening,
    Row::TermCut,
    Row::CubeCut,
    Row::TopeCut,
    Row::ContextOf,
    Row::TypeOf,
    Row::LeftSide,
    Row::RightSide,
    Row::Inversion,
    Row::OwnType,
];

impl Row {
    /// The row's entry of the table.
    fn rule(self) -> Rule
        ensures { IsRule (rule_of self) result }
    {
        match self {
            Row::ContextNil => contexts::CONTEXT_NIL_RULE,
            Row::ContextCube => contexts::CONTEXT_CUBE_RULE,
            Row::ContextTope => contexts::CONTEXT_TOPE_RULE,
            Row::ContextTerm => contexts::CONTEXT_TERM_RULE,
            Row::Top => topes::TOP_RULE,
            Row::Bottom => topes::BOTTOM_RULE,
            Row::And => topes::AND_RULE,
            Row::AndLeft => topes::AND_LEFT_RULE,
            Row::AndRight => topes::AND_RIGHT_RULE,
            Row::OrLeft => topes::OR_LEFT_RULE,
            Row::OrRight => topes::OR_RIGHT_RULE,
            Row::OrElimination => topes::OR_ELIMINATION_RULE,
            Row::EqualReflexive => topes::EQUAL_REFLEXIVE_RULE,
            Row::EqualSymmetric => topes::EQUAL_SYMMETRIC_RULE,
            Row::EqualTransitive => topes::EQUAL_TRANSITIVE_RULE,
            Row::EqualFirst => topes::EQUAL_FIRST_RULE,
            Row::EqualSecond => topes::EQUAL_SECOND_RULE,
            Row::EqualEta => topes::EQUAL_ETA_RULE,
            Row::EqualOne => topes::EQUAL_ONE_RULE,
            Row::EqualPair => topes::EQUAL_PAIR_RULE,
            Row::EqualLeft => topes::EQUAL_LEFT_RULE,
            Row::EqualRight => topes::EQUAL_RIGHT_RULE,
            Row::AtMostEqual => topes::AT_MOST_EQUAL_RULE,
            Row::AtMostTransitive => topes::AT_MOST_TRANSITIVE_RULE,
            Row::AtMostAntisymmetric => topes::AT_MOST_ANTISYMMETRIC_RULE,
            Row::AtMostTotal => topes::AT_MOST_TOTAL_RULE,
            Row::ZeroAtMost => topes::ZERO_AT_MOST_RULE,
            Row::AtMostOne => topes::AT_MOST_ONE_RULE,
            Row::ZeroIsNotOne => topes::ZERO_IS_NOT_ONE_RULE,
            Row::Universe => typing::UNIVERSE_RULE,
            Row::Constant => typing::CONSTANT_RULE,
            Row::Postulate => typing::POSTULATE_RULE,
            Row::Pi => typing::PI_RULE,
            Row::Sigma => typing::SIGMA_RULE,
            Row::Lambda => typing::LAMBDA_RULE,
            Row::Application => typing::APPLICATION_RULE,
            Row::Pair => typing::PAIR_RULE,
            Row::First => typing::FIRST_RULE,
            Row::Second => typing::SECOND_RULE,
            Row::Identity => typing::IDENTITY_RULE,
            Row::Reflexivity => typing::REFLEXIVITY_RULE,
            Row::IdentityInduction => typing::IDENTITY_INDUCTION_RULE,
            Row::UnitType => typing::UNIT_TYPE_RULE,
            Row::Star => typing::STAR_RULE,
            Row::Extension => typing::EXTENSION_RULE,
            Row::ExtensionLambda => typing::EXTENSION_LAMBDA_RULE,
            Row::ExtensionApplication => typing::EXTENSION_APPLICATION_RULE,
            Row::RecOr => typing::REC_OR_RULE,
            Row::RecBottom => typing::REC_BOTTOM_RULE,
            Row::Conversion => typing::CONVERSION_RULE,
            Row::SameReflexive => congruence::SAME_REFLEXIVE_RULE,
            Row::SameSymmetric => congruence::SAME_SYMMETRIC_RULE,
            Row::SameTransitive => congruence::SAME_TRANSITIVE_RULE,
            Row::SameConversion => congruence::SAME_CONVERSION_RULE,
            Row::PiCongruence => congruence::PI_CONGRUENCE_RULE,
            Row::SigmaCongruence => congruence::SIGMA_CONGRUENCE_RULE,
            Row::LambdaCongruence => congruence::LAMBDA_CONGRUENCE_RULE,
            Row::ApplicationCongruence => congruence::APPLICATION_CONGRUENCE_RULE,
            Row::PairCongruence => congruence::PAIR_CONGRUENCE_RULE,
            Row::FirstCongruence => congruence::FIRST_CONGRUENCE_RULE,
            Row::SecondCongruence => congruence::SECOND_CONGRUENCE_RULE,
            Row::IdentityCongruence => congruence::IDENTITY_CONGRUENCE_RULE,
            Row::ReflexivityCongruence => congruence::REFLEXIVITY_CONGRUENCE_RULE,
            Row::IdentityInductionCongruence => congruence::IDENTITY_INDUCTION_CONGRUENCE_RULE,
            Row::ExtensionCongruence => congruence::EXTENSION_CONGRUENCE_RULE,
            Row::ExtensionLambdaCongruence => congruence::EXTENSION_LAMBDA_CONGRUENCE_RULE,
            Row::ExtensionApplicationCongruence =>
                congruence::EXTENSION_APPLICATION_CONGRUENCE_RULE,
            Row::RecOrCongruence => congruence::REC_OR_CONGRUENCE_RULE,
            Row::RecBottomCongruence => congruence::REC_BOTTOM_CONGRUENCE_RULE,
            Row::Beta => computation::BETA_RULE,
            Row::Eta => computation::ETA_RULE,
            Row::FirstBeta => computation::FIRST_BETA_RULE,
            Row::SecondBeta => computation::SECOND_BETA_RULE,
            Row::PairEta => computation::PAIR_ETA_RULE,
            Row::IdentityInductionBeta => computation::IDENTITY_INDUCTION_BETA_RULE,
            Row::UnitEta => computation::UNIT_ETA_RULE,
            Row::Delta => computation::DELTA_RULE,
            Row::ExtensionBeta => computation::EXTENSION_BETA_RULE,
            Row::ExtensionEta => computation::EXTENSION_ETA_RULE,
            Row::Face => computation::FACE_RULE,
            Row::RecOrLeft => computation::REC_OR_LEFT_RULE,
            Row::RecOrRight => computation::REC_OR_RIGHT_RULE,
            Row::RecOrEta => computation::REC_OR_ETA_RULE,
            Row::RecBottomEta => computation::REC_BOTTOM_ETA_RULE,
            Row::PointReplacement => computation::POINT_REPLACEMENT_RULE,
            Row::Hypothesis => structural::HYPOTHESIS_RULE,
            Row::Variable => structural::VARIABLE_RULE,
            Row::Weakening => structural::WEAKENING_RULE,
            Row::TermCut => structural::TERM_CUT_RULE,
            Row::CubeCut => structural::CUBE_CUT_RULE,
            Row::TopeCut => structural::TOPE_CUT_RULE,
            Row::ContextOf => structural::CONTEXT_OF_RULE,
            Row::TypeOf => structural::TYPE_OF_RULE,
            Row::LeftSide => structural::LEFT_SIDE_RULE,
            Row::RightSide => structural::RIGHT_SIDE_RULE,
            Row::Inversion => structural::INVERSION_RULE,
            Row::OwnType => structural::OWN_TYPE_RULE,
        }
    }

    /// How the row leads from its premises to its conclusion.
    pub fn scheme(self) -> Scheme
        ensures { result ≡ (rule_of self).scheme }
    {
        match self {
            Row::Hypothesis => Scheme::Hypothesis,
            Row::Variable => Scheme::Variable,
            Row::Weakening => Scheme::Weakening,
            Row::TermCut => Scheme::TermCut,
            Row::CubeCut => Scheme::CubeCut,
            Row::TopeCut => Scheme::TopeCut,
            Row::ContextOf => Scheme::ContextOf,
            Row::Inversion => Scheme::Inversion,
            Row::OwnType => Scheme::OwnType,
            _ => Scheme::Text,
        }
    }

    /// The row's text: its premises, and then its conclusion.
    pub fn text(self) -> &'static [Symbol]
        ensures { result.now ≡ (rule_of self).text }
    {
        self.rule().1
    }

    /// What the row asks beside its premises.
    pub fn conditions(self) -> &'static [Condition]
        ensures { result.now ≡ (rule_of self).conditions }
    {
        self.rule().2
    }

    /// The row that types the terms of a former; `None` where the kind is that of a variable or of no term.
    pub fn of_former(kind: Kind) -> Option<Row>
        ensures { result ≡ typing_row kind }
    {
        match kind {
            Kind::Universe => Some(Row::Universe),
            Kind::Constant => Some(Row::Constant),
            Kind::Postulate => Some(Row::Postulate),
            Kind::Pi => Some(Row::Pi),
            Kind::Sigma => Some(Row::Sigma),
            Kind::Lambda => Some(Row::Lambda),
            Kind::Application => Some(Row::Application),
            Kind::Pair => Some(Row::Pair),
            Kind::First => Some(Row::First),
            Kind::Second => Some(Row::Second),
            Kind::Identity => Some(Row::Identity),
            Kind::Reflexivity => Some(Row::Reflexivity),
            Kind::IdentityInduction => Some(Row::IdentityInduction),
            Kind::UnitType => Some(Row::UnitType),
            Kind::Star => Some(Row::Star),
            Kind::Extension => Some(Row::Extension),
            Kind::ExtensionLambda => Some(Row::ExtensionLambda),
            Kind::ExtensionApplication => Some(Row::ExtensionApplication),
            Kind::RecOr => Some(Row::RecOr),
            Kind::RecBottom => Some(Row::RecBottom),
            _ => None,
        }
    }
}

impl Worded for Row {
    ghost word_of = { word_of_row };

    ghost all = { all_rows };

    fn word(&self) -> &'static str {
        self.rule().0
    }

    fn every() -> &'static [Row] {
        ROWS
    }

    ghost words_are_distinct = { row_words_are_distinct };
}
