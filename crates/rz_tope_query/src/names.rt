//! The names of a sequent, and the forms in which they are bound names.

ghost use Rattle.std.specs.Prelude.{◌≡◌, ◌++◌, List, ℕ, true, false, map, IfOk, IfSome, IfNone, OnOk};
ghost use Rattle.rz_tope_query.specs.Sequent.{are_distinct, bound_form, names_of};
ghost use Rattle.rz_tope_query.specs.Parts.{HasPlaces};

use rz_pool::HashKey;
use rz_rules::{Items, Name, OutOfMemory};
use rz_syntax::{CubeNames, Form, Word};
use std::alloc::Global;
use std::collections::HashMap;

/// For each of some names how many names stand behind it.
pub type Places<'a> = HashMap<&'a str, u64, HashKey>;

/// Adds the names of words at the end.
fn add_names(names: &mut Items<Name>, words: &[Word]) -> Result<(), OutOfMemory>
    ensures { OnOk result (names.new ≡ names.old ++ map (λ word. word.name) words.now) }
{
    for word in words {
        names.push(word.name.copy()?)?;
    }
    Ok(())
}

/// The names of a sequent, in order.
pub fn sequent_names(alloc: Global, groups: &[CubeNames]) -> Result<Items<Name>, OutOfMemory>
    ensures { IfOk result (λ names. names ≡ names_of groups.now) }
{
    let mut names = Items::new(alloc);
    for group in groups {
        add_names(&mut names, group.names.as_slice())?;
    }
    Ok(names)
}

/// For each name how many names stand behind it; `None` where a name stands twice.
pub fn places(
    alloc: Global,
    key: HashKey,
    names: &[Name],
) -> Result<Option<Places<'_>>, OutOfMemory>
    ensures distinct { IfOk result (λ found. IfSome found
        (λ _. are_distinct names.now ≡ true)) }
    ensures places { IfOk result (λ found. IfSome found (HasPlaces names.now)) }
    ensures none { IfOk result (λ found. IfNone found (are_distinct names.now ≡ false)) }
{
    let mut places = HashMap::with_hasher(alloc, key);
    let mut behind = names.len() as u64;
    for name in names {
        behind -= 1;
        if places.insert(name.as_str(), behind)?.is_some() {
            return Ok(None);
        }
    }
    Ok(Some(places))
}

/// A form in which a name that has a place is a bound name.
fn bound_form(alloc: Global, places: &Places<'_>, form: Form) -> Form
    ensures { (names : List (List ℕ)) → HasPlaces names places.now
        → result ≡ bound_form names form }
{
    match form {
        Form::Named { name } => match places.get(name.as_str()).copied() {
            Some(up) => Form::Bound {
                up,
                path: Name::new(alloc),
            },
            None => Form::Named { name },
        },
        other => other,
    }
}

/// The forms in which names that have a place are bound names.
pub fn bound_forms(
    alloc: Global,
    places: &Places<'_>,
    forms: Items<Form>,
) -> Result<Items<Form>, OutOfMemory>
    ensures { (names : List (List ℕ)) → HasPlaces names places.now
        → IfOk result (λ bound. bound ≡ map (bound_form names) forms) }
{
    let mut bound = Items::new(alloc);
    for form in forms.into_vec() {
        bound.push(bound_form(alloc, places, form))?;
    }
    Ok(bound)
}
