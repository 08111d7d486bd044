//! The words of a line.

ghost use Rattle.std.specs.Prelude.{◌≡◌, ◌==◌, IfOk, IfSome, IfNone};
ghost use Rattle.std.specs.List.{slice_split};
ghost use Rattle.rz_rules.specs.Name.{IsName};
ghost use Rattle.rz_drv.specs.Words.{words_in};

use rz_rules::{Name, OutOfMemory, is_name};
use std::alloc::{AllocError, Global};

/// The words of a line, between its spaces.
pub fn split_words(alloc: Global, line: &[u8]) -> Result<Vec<&[u8]>, AllocError>
    ensures { IfOk result (λ words. words_in words.items ≡ slice_split (λ b. b == 32) line.now) }
{
    line.split(|b| *b == b' ').collect(alloc)
}

/// The name that a word is; `None` where it is none.
pub fn name_of(alloc: Global, word: &[u8]) -> Result<Option<Name>, OutOfMemory>
    ensures found { IfOk result (λ answer. IfSome answer (λ name. name ≡ word.now)) }
    ensures name { IfOk result (λ answer. IfSome answer (λ name. IsName word.now)) }
    ensures none { IfOk result (λ answer. IfNone answer (IsName word.now → ⊥)) }
{
    if !is_name(word) {
        return Ok(None);
    }
    match str::from_utf8(word) {
        Ok(text) => Ok(Some(Name::from_text(alloc, text)?)),
        Err(_) => Ok(None),
    }
}
