//! What a walk has still to do, and a step of it.

ghost use Rattle.std.specs.Prelude.{◌≡◌, ◌+◌, ◌++◌, ◌∷◌, [], ◌<◌, ◌≤◌, ℕ, Some, IfOk, OnOk, All, reverse, take, drop, length, map, slice_get};
ghost use Rattle.rz_rules.specs.declared.nodes.Node.{Node};
ghost use Rattle.rz_rules.specs.declared.kinds.Role.TheVariants.{Variable};
ghost use Rattle.rz_rules.specs.Form.{form};
ghost use Rattle.rz_rules.specs.Tree.{HasForm, tree_of, tree_over, trees_in};
ghost use Rattle.rz_pool.specs.Pool.{Grows, IsPool};
ghost use Rattle.rz_subst.specs.declared.tasks.Task.TheVariants.{Visit, Make};
ghost use Rattle.rz_subst.specs.Walk.{kid_places, reach_of, shared_place};
ghost use Rattle.rz_subst.specs.Tasks.{with_kids};

use crate::walk::{Place, Reach, shared};
use rz_pool::Pool;
use rz_rules::{Kids, Node, OutOfMemory};

/// Something that a walk has still to do.
#[derive(Clone, Copy, Debug)]
pub enum Task {
    /// The tree at a place is to change.
    Visit(Place),
    /// A node is to be made for the one at a place, over what became of its kids.
    Make(Place),
}

/// Goes on to the kids of a node at a place, each at the place that it shares, and then to the node.
pub fn visit_kids(
    tasks: &mut Vec<Task>,
    pool: &Pool,
    reach: Reach,
    place: Place,
    node: &Node,
) -> Result<(), OutOfMemory>
    requires slots { length node.now.kids ≡ length (form node.now.kind).kids }
    requires live { All (λ kid. kid < length pool.now.nodes) node.now.kids }
    ensures { OnOk result (tasks.new.items ≡ tasks.old.items ++ Make place
        ∷ map Visit (map (shared_place (reach_of reach) pool.now.nodes)
        (kid_places place (form node.now.kind).kids node.now.kids))) }
{
    let slots = node.kind.form().kids;
    let kids = node.kids.as_slice();
    tasks.push(Task::Make(place))?;
    for i in 0..kids.len() {
        let kid = place.kid(slots[i], kids[i])?;
        tasks.push(Task::Visit(shared(pool, reach, kid)))?;
    }
    Ok(())
}

/// Takes so many ids off the end of a list, the last one first.
fn last_kids(news: &mut Vec<u64>, count: u64) -> Kids
    requires few { count ≤ 7 }
    requires enough { count ≤ length news.old.items }
    ensures kids { result ≡ take count (reverse news.old.items) }
    ensures left { reverse news.new.items ≡ drop count (reverse news.old.items) }
{
    let mut kids = Kids::new();
    while kids.len() < count {
        match news.pop() {
            Some(id) => kids.push(id),
            None => unreachable!(),
        }
    }
    kids
}

/// Makes the node at a place anew, over the last ids of a list, as many as it has kids.
pub fn make_over(pool: &mut Pool, place: Place, news: &mut Vec<u64>) -> Result<u64, OutOfMemory>
    requires live { place.id < length pool.old.nodes }
    requires enough { (node : Node) → slice_get pool.old.nodes place.id ≡ Some node
        → length node.kids ≤ length news.old.items }
    requires form { (node : Node) → slice_get pool.old.nodes place.id ≡ Some node
        → HasForm (trees_in pool.old.nodes) (length pool.old.nodes)
        (with_kids node (take (length node.kids) (reverse news.old.items))) }
    ensures within { IfOk result (λ id. id < length pool.new.nodes) }
    ensures tree { IfOk result (λ id. (node : Node) → slice_get pool.old.nodes place.id ≡ Some node
        → tree_of pool.new.nodes id ≡ tree_over (trees_in pool.old.nodes)
        (with_kids node (take (length node.kids) (reverse news.old.items)))) }
    ensures left { OnOk result ((node : Node) → slice_get pool.old.nodes place.id ≡ Some node
        → reverse news.new.items ≡ drop (length node.kids) (reverse news.old.items)) }
    ensures grows { Grows pool.old.nodes pool.new.nodes }
    ensures pool { IsPool pool.new.nodes }
{
    let mut node = pool.node(place.id).copy()?;
    node.kids = last_kids(news, node.kids.len());
    pool.make(node)
}
