//! Derivations as tables: nodes, steps by rows whose rule is a text, and steps that move to a context with one entry more.

ghost use Rattle.std.specs.Prelude.{◌≡◌, ◌+◌, ◌<◌, ◌≤◌, ◌++◌, ◌∷◌, [], List, All, length, map, IsTrue, IfOk, IfSome, OnOk};
ghost use Rattle.std.specs.List.{slice_index_or};
ghost use Rattle.rz_rules.specs.File.{Claim, IsFile};
ghost use Rattle.rz_rules.specs.Name.{IsName};
ghost use Rattle.rz_tope_tests.specs.Bench.{AreConcluded, CanAllMove, CanMove, HaveKids, IsBench, IsConcluded, IsTrial, concluded, moved, node_tree, said, said_after, trees, trees_after};

use rz_drv::encode;
use rz_export::{Claimed, export};
use rz_lemmas::{conclude, weaken};
use rz_log::World;
use rz_rules::{Bytes, Kids, Kind, Name, Node, OutOfMemory, Row, is_name};
use std::alloc::Global;

/// A node as a row of a table: its kind, its number, and the places of its kids in the table.
pub type NodeRow = (Kind, u64, &'static [usize]);

/// A step as a row of a table: its row, the places of the nodes of its letters, and the places of its premises among the
/// steps.
pub type StepRow = (Row, &'static [usize], &'static [usize]);

/// A move as a row of a table: the place of a step, that of the step that says the new context is formed, and how many entries
/// stand there behind the new one.
pub type MoveRow = (usize, usize, u64);

/// A claim as a row of a table: its name, and the place of its step.
pub type ClaimRow = (&'static str, usize);

/// A world, and the ids of nodes and the steps that were made in it by tables.
#[derive(Debug, Drop)]
pub struct Bench {
    pub w: World,
    pub ids: Vec<u64>,
    pub steps: Vec<u64>,
}

impl Bench {
    /// A world without nodes and steps.
    pub fn new(alloc: Global) -> Bench
        ensures bench { IsBench result }
        ensures trees { trees result ≡ [] }
        ensures said { said result ≡ [] }
    {
        Bench {
            w: World::new(alloc),
            ids: Vec::new(alloc),
            steps: Vec::new(alloc),
        }
    }
}

/// What a list of ids or of steps has at these places.
fn pick(alloc: Global, numbers: &[u64], places: &[usize]) -> Result<Vec<u64>, OutOfMemory>
    requires { All (λ place. place < length numbers.now) places.now }
    ensures { IfOk result (λ picked. picked.items
        ≡ map (λ place. slice_index_or numbers.now place 0) places.now) }
{
    let mut picked = Vec::new(alloc);
    for place in places {
        picked.push(numbers[*place])?;
    }
    Ok(picked)
}

impl Bench {
    /// Makes a node; `false` where it is none.
    fn node(&mut self, alloc: Global, row: &NodeRow) -> Result<bool, OutOfMemory>
        requires bench { IsBench self.old }
        requires there { All (λ place. place < length (trees self.old)) row.now.2.now }
        requires few { length row.now.2.now ≤ 7 }
        ensures bench { IfOk result (λ made. IsTrue made → IsBench self.new) }
        ensures trees { IfOk result (λ made. IsTrue made
            → trees self.new ≡ trees self.old ++ node_tree (trees self.old) row.now ∷ []) }
        ensures said { IfOk result (λ made. IsTrue made → said self.new ≡ said self.old) }
    {
        let kids = pick(alloc, &self.ids, row.2)?;
        let node = Node {
            kind: row.0,
            number: row.1,
            name: Name::new(alloc),
            kids: Kids::from_slice(&kids),
        };
        if !self.w.pool.accepts(&node) {
            return Ok(false);
        }
        let id = self.w.pool.make(node)?;
        self.ids.push(id)?;
        Ok(true)
    }

    /// Makes the nodes of a table; `false` where one of them is none.
    pub fn build(&mut self, alloc: Global, rows: &[NodeRow]) -> Result<bool, OutOfMemory>
        requires bench { IsBench self.old }
        requires kids { HaveKids (length (trees self.old)) rows.now }
        ensures bench { IfOk result (λ made. IsTrue made → IsBench self.new) }
        ensures trees { IfOk result (λ made. IsTrue made
            → trees self.new ≡ trees_after (trees self.old) rows.now) }
        ensures said { IfOk result (λ made. IsTrue made → said self.new ≡ said self.old) }
    {
        for row in rows {
            if !self.node(alloc, row)? {
                return Ok(false);
            }
        }
        Ok(true)
    }

    /// Makes a step.
    fn step(&mut self, alloc: Global, row: &StepRow) -> Result<(), OutOfMemory>
        requires bench { IsBench self.old }
        requires concluded { IsConcluded (trees self.old) (said self.old)
            row.now.0 row.now.1.now row.now.2.now }
        ensures bench { OnOk result (IsBench self.new) }
        ensures trees { OnOk result (trees self.new ≡ trees self.old) }
        ensures said { OnOk result (said self.new
            ≡ said self.old ++ concluded (trees self.old) row.now.0 row.now.1.now ∷ []) }
    {
        let letters = pick(alloc, &self.ids, row.1)?;
        let premises = pick(alloc, &self.steps, row.2)?;
        let step = conclude(alloc, &mut self.w, row.0, &letters, None, &premises)?;
        self.steps.push(step)?;
        Ok(())
    }

    /// Makes the steps of a table.
    pub fn run(&mut self, alloc: Global, rows: &[StepRow]) -> Result<(), OutOfMemory>
        requires bench { IsBench self.old }
        requires concluded { AreConcluded (trees self.old) (said self.old) rows.now }
        ensures bench { OnOk result (IsBench self.new) }
        ensures trees { OnOk result (trees self.new ≡ trees self.old) }
        ensures said { OnOk result (said self.new
            ≡ said_after (trees self.old) (said self.old) rows.now) }
    {
        for row in rows {
            self.step(alloc, row)?;
        }
        Ok(())
    }

    /// Moves what a step says to a context with one entry more.
    fn weaken_step(&mut self, alloc: Global, row: &MoveRow) -> Result<(), OutOfMemory>
        requires bench { IsBench self.old }
        requires can { CanMove (said self.old) row.now.0 row.now.1 row.now.2 }
        ensures bench { OnOk result (IsBench self.new) }
        ensures trees { OnOk result (trees self.new ≡ trees self.old) }
        ensures said { (can : CanMove (said self.old) row.now.0 row.now.1 row.now.2)
            → OnOk result (said self.new ≡ said self.old
            ++ moved (said self.old) row.now.0 row.now.1 row.now.2 can ∷ []) }
    {
        let step = self.steps[row.0];
        let formed = self.steps[row.1];
        let new = weaken(alloc, &mut self.w, step, formed, row.2)?;
        self.steps.push(new)?;
        Ok(())
    }

    /// Moves what the steps of a table say, which are there before.
    pub fn weaken(&mut self, alloc: Global, rows: &[MoveRow]) -> Result<(), OutOfMemory>
        requires bench { IsBench self.old }
        requires can { CanAllMove (said self.old) rows.now }
        ensures bench { OnOk result (IsBench self.new) }
        ensures trees { OnOk result (trees self.new ≡ trees self.old) }
        ensures count { OnOk result (length (said self.new)
            ≡ length (said self.old) + length rows.now) }
    {
        for row in rows {
            self.weaken_step(alloc, row)?;
        }
        Ok(())
    }

    /// A name for what a step says; `None` where a file can't have this name.
    fn claim(&self, alloc: Global, row: &ClaimRow) -> Result<Option<Claimed>, OutOfMemory>
        requires bench { IsBench self.now }
        requires there { row.now.1 < length (said self.now) }
        ensures name { IfOk result (λ claim. IfSome claim (λ claimed. IsName claimed.name)) }
        ensures step { IfOk result (λ claim. IfSome claim
            (λ claimed. claimed.step < length self.now.w.log)) }
    {
        let name = Name::from_text(alloc, row.0)?;
        if !is_name(name.as_str().as_bytes()) {
            return Ok(None);
        }
        let step = self.steps[row.1];
        Ok(Some(Claimed { name, step }))
    }

    /// The file of what steps say, under these names; `None` where a file can't have such a name.
    pub fn file(&self, alloc: Global, rows: &[ClaimRow]) -> Result<Option<Bytes>, OutOfMemory>
        requires bench { IsBench self.now }
        requires there { All (λ row. row.1 < length (said self.now)) rows.now }
        ensures { IfOk result (λ file. IfSome file
            (λ bytes. (claims : List Claim) × IsFile bytes claims)) }
    {
        let mut claims = Vec::new(alloc);
        for row in rows {
            let Some(claimed) = self.claim(alloc, row)? else {
                return Ok(None);
            };
            claims.push(claimed)?;
        }
        let part = export(alloc, &self.w, &claims)?;
        let bytes = encode(alloc, &part)?;
        Ok(Some(bytes))
    }
}

/// The file of what tables make; `None` where a row is no node, or a name is none.
pub fn file_of(
    alloc: Global,
    nodes: &[NodeRow],
    steps: &[StepRow],
    moves: &[MoveRow],
    claims: &[ClaimRow],
) -> Result<Option<Bytes>, OutOfMemory>
    requires { IsTrial nodes.now steps.now moves.now claims.now }
    ensures { IfOk result (λ file. IfSome file
        (λ bytes. (claims : List Claim) × IsFile bytes claims)) }
{
    let mut bench = Bench::new(alloc);
    if !bench.build(alloc, nodes)? {
        return Ok(None);
    }
    bench.run(alloc, steps)?;
    bench.weaken(alloc, moves)?;
    bench.file(alloc, claims)
}
