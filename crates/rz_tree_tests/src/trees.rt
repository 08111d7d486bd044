//! Trees as texts, for the tests of all layers: in prefix notation, in the words of the node table.

ghost use Rattle.std.specs.Prelude.{◌<◌, length, All, IfOk, IfSome, IsTrue};
ghost use Rattle.rz_pool.specs.Pool as pool_is;
ghost use Rattle.rz_pool.specs.Pool.{IsPool};

use rz_pool::Pool;
use rz_rules::{Kids, Kind, Name, Node, OutOfMemory, Worded};
use std::alloc::Global;

/// Makes a node whose kids are on a stack, the first on top, and puts it in their place; `false` where
/// it is none.
fn push_node(
    alloc: Global,
    pool: &mut Pool,
    stack: &mut Vec<u64>,
    kind: Kind,
    number: u64,
) -> Result<bool, OutOfMemory>
    ensures live { IfOk result (λ made. IsTrue made
        → All (λ id. id < length pool.old.nodes) stack.old.items
        → All (λ id. id < length pool.new.nodes) stack.new.items) }
    ensures grows { pool_is.Grows pool.old.nodes pool.new.nodes }
    ensures pool { IsPool pool.new.nodes }
{
    let _ = pool.len();
    let form = kind.form();
    let mut kids = Kids::new();
    for _ in 0..form.kids.len() {
        let Some(kid) = stack.pop() else {
            return Ok(false);
        };
        if kids.len() == 7 {
            return Ok(false);
        }
        kids.push(kid);
    }
    let name = Name::from_text(alloc, if form.role.is_named() { "k" } else { "" })?;
    let node = Node {
        kind,
        number,
        name,
        kids,
    };
    if !pool.accepts(&node) {
        return Ok(false);
    }
    let id = pool.make(node)?;
    stack.push(id)?;
    Ok(true)
}

/// The id of the tree that a text spells; `None` where it spells none. A number stands behind the
/// word of its node, and each name is `k`.
pub fn read(alloc: Global, pool: &mut Pool, text: &str) -> Result<Option<u64>, OutOfMemory>
    ensures live { IfOk result (λ tree. IfSome tree (λ id. id < length pool.new.nodes)) }
    ensures grows { pool_is.Grows pool.old.nodes pool.new.nodes }
    ensures pool { IsPool pool.new.nodes }
{
    let _ = pool.len();
    let mut stack: Vec<u64> = Vec::new(alloc);
    let mut number = 0;
    for word in text.rsplit(' ') {
        match word.parse::<u64>() {
            Ok(of_next) => number = of_next,
            Err(_) => {
                let Some(kind) = Kind::of_word(word.as_bytes()) else {
                    return Ok(None);
                };
                if !push_node(alloc, pool, &mut stack, kind, number)? {
                    return Ok(None);
                }
                number = 0;
            }
        }
    }
    let tree = stack.pop();
    Ok(tree)
}
