//! What stands for the letters of a row, in the places of the letters.

ghost use Rattle.std.specs.Prelude.{◌≡◌, length, map, IfOk};
ghost use Rattle.std.specs.List.{range_with_len};
ghost use Rattle.rz_rules.specs.Text.{IsText};
ghost use Rattle.rz_rules.specs.declared.symbols.TheConstants.{LETTERS};
ghost use Rattle.rz_lemmas.specs.Letters.{placed, slots};

use rz_rules::{LETTERS, OutOfMemory, Sort, Symbol};
use std::alloc::Global;

/// For each letter, by its number, its sort where a text has it.
fn sorts_in(text: &[Symbol]) -> [Option<Sort>; LETTERS]
    requires { IsText text.now }
    ensures { result ≡ slots text.now }
{
    let mut sorts = [None; LETTERS];
    let mut left = text;
    while let Some((symbol, others)) = left.split_last() {
        if let Symbol::Letter(letter) = *symbol {
            sorts[letter.number as usize] = Some(letter.sort);
        }
        left = others;
    }
    sorts
}

/// These ids in the places of the letters that a text has, in the order of the letters' numbers.
pub fn place(alloc: Global, text: &[Symbol], ids: &[u64]) -> Result<Vec<Option<u64>>, OutOfMemory>
    requires { IsText text.now }
    ensures { IfOk result (λ letters. letters.items ≡ placed (slots text.now) ids.now) }
{
    let mut letters = Vec::new(alloc);
    let mut left = ids;
    for sort in sorts_in(text) {
        let mut id = None;
        if sort.is_some()
            && let Some((first, others)) = left.split_first()
        {
            id = Some(*first);
            left = others;
        }
        letters.push(id)?;
    }
    Ok(letters)
}
