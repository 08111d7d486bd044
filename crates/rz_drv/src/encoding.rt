//! A part to bytes.

ghost use Rattle.std.specs.Prelude.{◌≡◌, ◌∷◌, ◌++◌, IfOk, OnOk, map};
ghost use Rattle.std.specs.Fmt.{decimal};
ghost use Rattle.std.specs.List.{concat};
ghost use Rattle.rz_rules.specs.File.{NodeItem, StepItem, name_words};
ghost use Rattle.rz_drv.specs.Part.{spelling, claim_item};
ghost use Rattle.rz_drv.specs.Lines.{item_line, item_lines};
ghost use Rattle.rz_drv.specs.Words.{spaced, number_words};

use crate::parts::Part;
use rz_rules::{Bytes, Line, Name, Node, OutOfMemory, Worded};
use std::alloc::Global;

/// The bytes of the file with this part. They are a file of the grammar where each item fits behind those before it.
pub fn encode(alloc: Global, part: &Part) -> Result<Bytes, OutOfMemory>
    ensures { IfOk result (λ bytes. bytes ≡ spelling part.now) }
{
    let mut bytes = Bytes::new(alloc);
    bytes.extend_from_slice(b"rzk-derivation 1\n")?;
    add_nodes(alloc, &mut bytes, part.nodes.as_slice())?;
    add_steps(alloc, &mut bytes, part.lines.as_slice())?;
    add_claims(alloc, &mut bytes, part.claims.as_slice())?;
    bytes.extend_from_slice(b"end\n")?;
    Ok(bytes)
}

/// Adds the lines of nodes.
fn add_nodes(alloc: Global, bytes: &mut Bytes, nodes: &[Node]) -> Result<(), OutOfMemory>
    ensures { OnOk result (bytes.new
        ≡ bytes.old ++ concat (item_lines (map (λ node. NodeItem node) nodes.now))) }
{
    for node in nodes {
        add_node(alloc, bytes, node)?;
    }
    Ok(())
}

/// Adds the lines of steps.
fn add_steps(alloc: Global, bytes: &mut Bytes, steps: &[Line]) -> Result<(), OutOfMemory>
    ensures { OnOk result (bytes.new
        ≡ bytes.old ++ concat (item_lines (map (λ line. StepItem line) steps.now))) }
{
    for step in steps {
        add_step(alloc, bytes, step)?;
    }
    Ok(())
}

/// Adds the lines of claims.
fn add_claims(alloc: Global, bytes: &mut Bytes, claims: &[(Name, u64)]) -> Result<(), OutOfMemory>
    ensures { OnOk result (bytes.new
        ≡ bytes.old ++ concat (item_lines (map claim_item claims.now))) }
{
    for claim in claims {
        add_claim(alloc, bytes, claim)?;
    }
    Ok(())
}

/// Adds the line of a node.
fn add_node(alloc: Global, bytes: &mut Bytes, node: &Node) -> Result<(), OutOfMemory>
    ensures { OnOk result (bytes.new ≡ bytes.old ++ item_line (NodeItem node.now)) }
{
    bytes.push(b'n')?;
    add_word(bytes, node.kind.word())?;
    add_name(bytes, node)?;
    add_own_number(alloc, bytes, node)?;
    add_numbers(alloc, bytes, node.kids.as_slice())?;
    bytes.push(b'\n')
}

/// Adds the name of a node, where its kind has one.
fn add_name(bytes: &mut Bytes, node: &Node) -> Result<(), OutOfMemory>
    ensures { OnOk result (bytes.new ≡ bytes.old ++ spaced (name_words node.now)) }
{
    if node.kind.form().role.is_named() {
        add_word(bytes, node.name.as_str())
    } else {
        Ok(())
    }
}

/// Adds the number of a node, where its kind has one.
fn add_own_number(alloc: Global, bytes: &mut Bytes, node: &Node) -> Result<(), OutOfMemory>
    ensures { OnOk result (bytes.new ≡ bytes.old ++ spaced (number_words node.now)) }
{
    if node.kind.form().role.is_numbered() {
        add_numbers(alloc, bytes, &[node.number])
    } else {
        Ok(())
    }
}

/// Adds the line of a step.
fn add_step(alloc: Global, bytes: &mut Bytes, step: &Line) -> Result<(), OutOfMemory>
    ensures { OnOk result (bytes.new ≡ bytes.old ++ item_line (StepItem step.now)) }
{
    let says = step.says;
    bytes.push(b's')?;
    add_word(bytes, step.row.word())?;
    add_numbers(alloc, bytes, &[step.number])?;
    add_word(bytes, says.kind().word())?;
    add_numbers(alloc, bytes, &[says.context()])?;
    add_numbers(alloc, bytes, says.parts().as_slice())?;
    add_numbers(alloc, bytes, step.from.as_slice())?;
    bytes.push(b'\n')
}

/// Adds the line of a claim.
fn add_claim(alloc: Global, bytes: &mut Bytes, claim: &(Name, u64)) -> Result<(), OutOfMemory>
    ensures { OnOk result (bytes.new ≡ bytes.old ++ item_line (claim_item claim.now)) }
{
    let (name, step) = claim;
    bytes.push(b'c')?;
    add_word(bytes, name.as_str())?;
    add_numbers(alloc, bytes, &[*step])?;
    bytes.push(b'\n')
}

/// Adds a space and a word.
fn add_word(bytes: &mut Bytes, word: &str) -> Result<(), OutOfMemory>
    ensures { OnOk result (bytes.new ≡ bytes.old ++ 32 ∷ word.now) }
{
    bytes.push(b' ')?;
    bytes.extend_from_slice(word.as_bytes())
}

/// Adds numbers, each behind a space.
fn add_numbers(alloc: Global, bytes: &mut Bytes, numbers: &[u64]) -> Result<(), OutOfMemory>
    ensures { OnOk result (bytes.new ≡ bytes.old ++ spaced (map decimal numbers.now)) }
{
    for number in numbers {
        add_word(bytes, format!(in alloc; "{number}")?.as_str())?;
    }
    Ok(())
}
