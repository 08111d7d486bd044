//! The walk over a shared tree, from its first task to the last.

ghost use Rattle.std.specs.Prelude.{◌≡◌, ◌++◌, ◌∷◌, [], ◌<◌, ◌^◌, ℕ, List, IfOk, OnOk, length};
ghost use Rattle.std.specs.Bool.{OnTrue, OnFalse};
ghost use Rattle.rz_rules.specs.declared.kinds.Role.TheVariants.{Variable};
ghost use Rattle.rz_rules.specs.declared.nodes.Node.{Node};
ghost use Rattle.rz_rules.specs.Form.{form};
ghost use Rattle.rz_rules.specs.Tree.{tree_of, kind_at};
ghost use Rattle.rz_rules.specs.Substitution.{Changes, changed, none};
ghost use Rattle.rz_pool.specs.Pool.{Grows, IsPool};
ghost use Rattle.rz_subst.specs.declared.tasks.Task.TheVariants.{Visit};
ghost use Rattle.rz_subst.specs.Made.{AddsOnly, AreMade};
ghost use Rattle.rz_subst.specs.Tasks.{IsLook, IsWalking, LeadsOn, IsMisfit};
ghost use Rattle.rz_subst.specs.Walk.{IsAnswerOf, KeepsTo, reach_of};

use crate::made::Made;
use crate::tasks::{Task, make_over, visit_kids};
use crate::walk::{Change, Changing, Place, Reach, is_beyond};
use rz_pool::{HashKey, Pool};
use rz_rules::{OutOfMemory, Role, Space};
use std::alloc::Global;

/// What is known of the tree at a place.
pub enum Look {
    /// What became of it was known: an id.
    Known(u64),
    /// What became of it is known by now.
    New(u64),
    /// What becomes of it has an index that is too large.
    TooLarge,
    /// What becomes of it depends on what becomes of its kids.
    OfKids,
}

/// A walk that is under way.
#[derive(Drop)]
pub struct Walk {
    /// How far out the variables lie that may change.
    pub reach: Reach,
    /// What is still to be done, the next task last.
    pub tasks: Vec<Task>,
    /// What became of trees that no node is made over yet: ids, the last one last.
    pub news: Vec<u64>,
    /// What became of places.
    pub made: Made,
}

impl Walk {
    /// The walk over the tree of an id, before its first task.
    fn new(alloc: Global, key: HashKey, reach: Reach, id: u64) -> Result<Walk, OutOfMemory>
        ensures { IfOk result (λ walk. (changes : Changes) (nodes : List Node)
            → KeepsTo (reach_of reach) changes → id < length nodes
            → IsWalking changes nodes id walk.tasks.items walk) }
    {
        let mut tasks = Vec::new(alloc);
        tasks.push(Task::Visit(Place::top(id)))?;
        Ok(Walk {
            reach,
            tasks,
            news: Vec::new(alloc),
            made: Made::new(alloc, key),
        })
    }

    /// Adds what became of a place.
    fn settle(&mut self, place: Place, id: u64) -> Result<(), OutOfMemory>
        ensures news { OnOk result (self.new.news.items ≡ self.old.news.items ++ id ∷ []) }
        ensures made { OnOk result (AddsOnly self.old.made self.new.made place id) }
        ensures tasks { self.new.tasks ≡ self.old.tasks }
        ensures reach { self.new.reach ≡ self.old.reach }
    {
        self.made.add(place, id)?;
        self.news.push(id)?;
        Ok(())
    }
}

/// What becomes of the variable at a place.
fn change_variable<C: Changing>(
    alloc: Global,
    pool: &mut Pool,
    changing: &C,
    place: Place,
    space: Space,
) -> Result<Look, OutOfMemory>
    requires there { C.is_there changing.now pool.old.nodes }
    requires live { place.id < length pool.old.nodes }
    requires pool { IsPool pool.old.nodes }
    requires variable { (form (kind_at (tree_of pool.old.nodes place.id))).role ≡ Variable space }
    ensures look { IfOk result (IsLook (C.changes changing.now pool.old.nodes)
        pool.old.nodes pool.new.nodes place) }
    ensures grows { Grows pool.old.nodes pool.new.nodes }
    ensures pool { IsPool pool.new.nodes }
{
    let mut node = pool.node(place.id).copy()?;
    match changing.variable(alloc, pool, space, place.depth, node.number)? {
        None => Ok(Look::TooLarge),
        Some(Change::Renumbered(number)) => {
            node.number = number;
            Ok(Look::New(pool.make(node)?))
        }
        Some(Change::Replaced(id)) => Ok(Look::New(id)),
    }
}

/// What is known of the tree at a place.
fn look_at<C: Changing>(
    alloc: Global,
    pool: &mut Pool,
    changing: &C,
    walk: &Walk,
    place: Place,
) -> Result<Look, OutOfMemory>
    requires there { C.is_there changing.now pool.old.nodes }
    requires live { place.id < length pool.old.nodes }
    requires pool { IsPool pool.old.nodes }
    requires made { AreMade (C.changes changing.now pool.old.nodes) pool.old.nodes walk.now.made }
    requires keeps { KeepsTo (reach_of walk.now.reach) (C.changes changing.now pool.old.nodes) }
    ensures look { IfOk result (IsLook (C.changes changing.now pool.old.nodes)
        pool.old.nodes pool.new.nodes place) }
    ensures grows { Grows pool.old.nodes pool.new.nodes }
    ensures pool { IsPool pool.new.nodes }
{
    if is_beyond(pool, walk.reach, place) {
        return Ok(Look::Known(place.id));
    }
    if let Some(id) = walk.made.find(place) {
        return Ok(Look::Known(id));
    }
    match pool.node(place.id).kind.form().role {
        Role::Variable(space) => change_variable(alloc, pool, changing, place, space),
        Role::Declared => Ok(Look::Known(place.id)),
        Role::Former => Ok(Look::OfKids),
    }
}

/// Comes to a place; `false` where an index would be too large.
fn visit<C: Changing>(
    alloc: Global,
    pool: &mut Pool,
    changing: &C,
    walk: &mut Walk,
    place: Place,
) -> Result<bool, OutOfMemory>
    requires there { C.is_there changing.now pool.old.nodes }
    requires pool { IsPool pool.old.nodes }
    requires walking { (id : ℕ) × IsWalking (C.changes changing.now pool.old.nodes)
        pool.old.nodes id (walk.old.tasks.items ++ Visit place ∷ []) walk.old }
    ensures leads_on { IfOk result (λ good. OnTrue good (LeadsOn
        (C.changes changing.now pool.old.nodes) pool.old.nodes
        (walk.old.tasks.items ++ Visit place ∷ []) walk.old
        (C.changes changing.now pool.new.nodes) pool.new.nodes walk.new)) }
    ensures misfit { IfOk result (λ good. OnFalse good (IsMisfit
        (C.changes changing.now pool.old.nodes) pool.old.nodes
        (walk.old.tasks.items ++ Visit place ∷ []) walk.old)) }
    ensures grows { Grows pool.old.nodes pool.new.nodes }
    ensures pool { IsPool pool.new.nodes }
{
    match look_at(alloc, pool, changing, walk, place)? {
        Look::Known(id) => {
            walk.news.push(id)?;
            Ok(true)
        }
        Look::New(id) => {
            walk.settle(place, id)?;
            Ok(true)
        }
        Look::TooLarge => Ok(false),
        Look::OfKids => {
            let node = pool.node(place.id);
            visit_kids(&mut walk.tasks, pool, walk.reach, place, node)?;
            Ok(true)
        }
    }
}

/// Does a task; `false` where an index would be too large.
fn step<C: Changing>(
    alloc: Global,
    pool: &mut Pool,
    changing: &C,
    walk: &mut Walk,
    task: Task,
) -> Result<bool, OutOfMemory>
    requires there { C.is_there changing.now pool.old.nodes }
    requires pool { IsPool pool.old.nodes }
    requires walking { (id : ℕ) × IsWalking (C.changes changing.now pool.old.nodes)
        pool.old.nodes id (walk.old.tasks.items ++ task ∷ []) walk.old }
    ensures leads_on { IfOk result (λ good. OnTrue good (LeadsOn
        (C.changes changing.now pool.old.nodes) pool.old.nodes
        (walk.old.tasks.items ++ task ∷ []) walk.old
        (C.changes changing.now pool.new.nodes) pool.new.nodes walk.new)) }
    ensures misfit { IfOk result (λ good. OnFalse good (IsMisfit
        (C.changes changing.now pool.old.nodes) pool.old.nodes
        (walk.old.tasks.items ++ task ∷ []) walk.old)) }
    ensures grows { Grows pool.old.nodes pool.new.nodes }
    ensures pool { IsPool pool.new.nodes }
{
    match task {
        Task::Visit(place) => visit(alloc, pool, changing, walk, place),
        Task::Make(place) => {
            let id = make_over(pool, place, &mut walk.news)?;
            walk.settle(place, id)?;
            Ok(true)
        }
    }
}

/// The id of what becomes of a tree; `None` where an index would be too large.
fn go<C: Changing>(
    alloc: Global,
    pool: &mut Pool,
    changing: &C,
    reach: Reach,
    id: u64,
) -> Result<Option<u64>, OutOfMemory>
    requires live { id < length pool.old.nodes }
    requires there { C.is_there changing.now pool.old.nodes }
    requires pool { IsPool pool.old.nodes }
    requires keeps { KeepsTo (reach_of reach) (C.changes changing.now pool.old.nodes) }
    ensures answer { IfOk result (IsAnswerOf pool.new.nodes
        (changed (C.changes changing.now pool.old.nodes) none (tree_of pool.old.nodes id))) }
    ensures grows { Grows pool.old.nodes pool.new.nodes }
    ensures pool { IsPool pool.new.nodes }
{
    let mut walk = Walk::new(alloc, pool.hash_key(), reach, id)?;
    while let Some(task) = walk.tasks.pop() {
        if !step(alloc, pool, changing, &mut walk, task)? {
            return Ok(None);
        }
    }
    match walk.news.pop() {
        Some(new) => Ok(Some(new)),
        None => unreachable!(),
    }
}

/// The id of what becomes of a tree; `None` where an index would be too large.
pub fn rebuild<C: Changing>(
    alloc: Global,
    pool: &mut Pool,
    changing: &C,
    id: u64,
) -> Result<Option<u64>, OutOfMemory>
    requires live { id < length pool.old.nodes }
    requires there { C.is_there changing.now pool.old.nodes }
    ensures answer { IfOk result (IsAnswerOf pool.new.nodes
        (changed (C.changes changing.now pool.old.nodes) none (tree_of pool.old.nodes id))) }
    ensures grows { Grows pool.old.nodes pool.new.nodes }
    ensures pool { IsPool pool.new.nodes }
{
    let reach = changing.reach(pool);
    if is_beyond(pool, reach, Place::top(id)) {
        return Ok(Some(id));
    }
    let question = changing.question(id);
    if let Some(answer) = pool.known_answer(question) {
        return Ok(answer);
    }
    let answer = go(alloc, pool, changing, reach, id)?;
    pool.keep_answer(question, answer);
    Ok(answer)
}
