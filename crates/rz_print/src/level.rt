//! The levels of the grammar at which a form may stand.

ghost use Rattle.std.specs.Prelude.{◌≡◌};
ghost use Rattle.rz_print.specs.Level.{rank, home};

use rz_syntax::Form;

/// A level of the grammar. What a level gives stands at each level before it, and in brackets at
/// every level.
#[derive(Clone, Copy, Debug, PartialEq, Eq)]
pub enum Level {
    Term,
    Rest,
    Disjunction,
    Conjunction,
    Relation,
    Product,
    Application,
    /// The head of an application: an atom, or the first or second part of one.
    Head,
    Atom,
}

/// How many levels stand before it.
pub fn rank(level: Level) -> u8
    ensures { result ≡ rank level }
{
    match level {
        Level::Term => 0,
        Level::Rest => 1,
        Level::Disjunction => 2,
        Level::Conjunction => 3,
        Level::Relation => 4,
        Level::Product => 5,
        Level::Application => 6,
        Level::Head => 7,
        Level::Atom => 8,
    }
}

/// The last level at which the form stands without brackets.
pub fn home(form: &Form) -> Level
    ensures { result ≡ home form.now }
{
    match form {
        Form::Lambda { .. } | Form::Arrow { .. } | Form::Sigma { .. } | Form::As { .. } => {
            Level::Term
        }
        Form::Restrict { .. } => Level::Rest,
        Form::Or { .. } => Level::Disjunction,
        Form::And { .. } => Level::Conjunction,
        Form::SamePoint { .. } | Form::AtMost { .. } | Form::Equal { .. } | Form::EqualAt { .. } =>
            Level::Relation,
        Form::Product { .. } => Level::Product,
        Form::App { .. } => Level::Application,
        Form::First { .. } | Form::Second { .. } => Level::Head,
        _ => Level::Atom,
    }
}
