//! Lists that are copied, joined and cut.

ghost use Rattle.std.specs.Prelude.{◌≡◌, [], ◌∷◌, ◌++◌, take, drop, IfOk, OnOk};

use rz_rules::{Items, OutOfMemory, TryCopy};
use std::alloc::Global;

/// Adds copies of these items at the end.
fn append<T: TryCopy + Drop>(list: &mut Items<T>, items: &[T]) -> Result<(), OutOfMemory>
    ensures { OnOk result (list.new ≡ list.old ++ items.now) }
{
    for item in items {
        list.push(item.try_copy()?)?;
    }
    Ok(())
}

/// The list of this item alone.
pub(crate) fn only<T: Drop>(alloc: Global, item: T) -> Result<Items<T>, OutOfMemory>
    ensures { IfOk result (λ list. list ≡ item ∷ []) }
{
    let mut list = Items::new(alloc);
    list.push(item)?;
    Ok(list)
}

/// The list of copies of these items, and then of those.
pub(crate) fn joined<T: TryCopy + Drop>(
    alloc: Global,
    first: &[T],
    second: &[T],
) -> Result<Items<T>, OutOfMemory>
    ensures { IfOk result (λ list. list ≡ first.now ++ second.now) }
{
    let mut list = Items::new(alloc);
    append(&mut list, first)?;
    append(&mut list, second)?;
    Ok(list)
}

/// The list of copies of these items.
pub(crate) fn copied<T: TryCopy + Drop>(alloc: Global, items: &[T]) -> Result<Items<T>, OutOfMemory>
    ensures { IfOk result (λ list. list ≡ items.now) }
{
    let mut list = Items::new(alloc);
    append(&mut list, items)?;
    Ok(list)
}

/// The first items of a list, as many as are asked for or as there are.
pub(crate) fn front<T>(items: &[T], count: u64) -> &[T]
    ensures { result.now ≡ take count items.now }
{
    if count < items.len() as u64 {
        &items[..count as usize]
    } else {
        items
    }
}

/// The items of a list behind so many.
pub(crate) fn back<T>(items: &[T], count: u64) -> &[T]
    ensures { result.now ≡ drop count items.now }
{
    if count < items.len() as u64 {
        &items[count as usize..]
    } else {
        &items[items.len()..]
    }
}
