//! Small files in which each row of the rules is the row of some step, and the structural rows stand at
//! many numbers and at terms of each form. The kernel says yes of each, and no where one word of a step
//! is another.

mod computation;
mod equality;
mod inversion;
mod point_substitution;
mod shape_equality;
mod shape_inversion;
mod shapes;
mod structural;
mod term_substitution;
mod topes;
mod types;
mod variables;
mod weakening;

use crate::derivations::{Nodes, Words, read_steps, write_step};
use rz_kernel::{KernelAnswer, kernel};
use std::alloc::Global;
use std::process::Abort;
use std::test::Fail;

/// A step, by its number, and words of its line: for each its place, and what is to stand there, a
/// number or a tree. The number of the row has the place 2; behind it come the judgment, its context and
/// parts, and the premises.
type Change = (usize, &'static [(usize, &'static str)]);

/// The nodes and the steps of a derivation.
#[derive(Drop)]
struct Derivation {
    nodes: Nodes,
    steps: Vec<Words>,
}

/// A word that is to stand at a place of a step.
#[derive(Drop)]
struct Other {
    step: usize,
    place: usize,
    word: String,
}

/// The words that make steps bad: numbers as they are, and those of trees.
fn others(
    alloc: Global,
    nodes: &mut Nodes,
    changes: &'static [Change],
) -> Result<Vec<Other>, Fail> {
    let mut others = Vec::new(alloc);
    for (step, words) in changes {
        for (place, value) in *words {
            let word = match value.parse::<u64>() {
                Ok(_) => String::from_str(alloc, value)?,
                Err(_) => {
                    let number = nodes.read(alloc, value)?;
                    format!(in alloc; "{number}")?
                }
            };
            others.push(Other {
                step: *step,
                place: *place,
                word,
            })?;
        }
    }
    Ok(others)
}

/// The file up to a step.
fn text_before(alloc: Global, derivation: &Derivation, step: usize) -> Result<Vec<u8>, Fail> {
    let mut text = Vec::new(alloc);
    text.extend_from_slice(b"rzk-derivation 1\n")?;
    derivation.nodes.write(&mut text)?;
    for words in derivation.steps.iter().take(step) {
        write_step(&mut text, words, None)?;
    }
    Ok(text)
}

/// Asserts that the steps follow, and that the first can be claimed.
fn assert_accepted(rt: &impl Abort, alloc: Global, derivation: &Derivation) -> Result<(), Fail> {
    let mut text = text_before(alloc, derivation, derivation.steps.len())?;
    text.extend_from_slice(b"c first 0\nend\n")?;
    assert_eq!(rt; kernel(alloc, &text)?, KernelAnswer::Yes(1));
    Ok(())
}

/// Asserts that a step doesn't follow with another word.
fn assert_refused(
    rt: &impl Abort,
    alloc: Global,
    derivation: &Derivation,
    other: &Other,
) -> Result<(), Fail> {
    let mut text = text_before(alloc, derivation, other.step)?;
    let words = derivation.steps.get(other.step).ok_or("no step")?;
    write_step(&mut text, words, Some((other.place, other.word.as_str())))?;
    text.extend_from_slice(b"end\n")?;
    let line = derivation
        .nodes
        .len()
        .saturating_add(other.step)
        .saturating_add(2);
    let wanted = KernelAnswer::BadRow(line as u64);
    assert_eq!(rt;
        kernel(alloc, &text)?,
        wanted,
        "step {}, word {}",
        other.step,
        other.place
    );
    Ok(())
}

/// Asserts that steps follow, and none with a change.
fn check_all(
    rt: &impl Abort,
    alloc: Global,
    steps: &[&str],
    changes: &'static [Change],
) -> Result<(), Fail> {
    let mut nodes = Nodes::new(alloc)?;
    let mut lines = Vec::new(alloc);
    read_steps(alloc, &mut nodes, &mut lines, steps)?;
    let others = others(alloc, &mut nodes, changes)?;
    let derivation = Derivation {
        nodes,
        steps: lines,
    };
    assert_accepted(rt, alloc, &derivation)?;
    for other in &others {
        assert_refused(rt, alloc, &derivation, other)?;
    }
    Ok(())
}

#[test]
fn contexts_and_topes(rt: HostRuntime) -> Result<(), Fail> {
    check_all(&rt, rt.alloc(), topes::STEPS, topes::CHANGES)
}

#[test]
fn typing_of_functions(rt: HostRuntime) -> Result<(), Fail> {
    check_all(&rt, rt.alloc(), types::STEPS, types::CHANGES)
}

#[test]
fn typing_on_shapes(rt: HostRuntime) -> Result<(), Fail> {
    check_all(&rt, rt.alloc(), shapes::STEPS, shapes::CHANGES)
}

#[test]
fn equality_of_terms(rt: HostRuntime) -> Result<(), Fail> {
    check_all(&rt, rt.alloc(), equality::STEPS, equality::CHANGES)
}

#[test]
fn equality_on_shapes(rt: HostRuntime) -> Result<(), Fail> {
    check_all(
        &rt,
        rt.alloc(),
        shape_equality::STEPS,
        shape_equality::CHANGES,
    )
}

#[test]
fn computation_rules(rt: HostRuntime) -> Result<(), Fail> {
    check_all(&rt, rt.alloc(), computation::STEPS, computation::CHANGES)
}

#[test]
fn structural_rules(rt: HostRuntime) -> Result<(), Fail> {
    check_all(&rt, rt.alloc(), structural::STEPS, structural::CHANGES)
}

#[test]
fn entries_at_many_numbers(rt: HostRuntime) -> Result<(), Fail> {
    check_all(&rt, rt.alloc(), variables::STEPS, variables::CHANGES)
}

#[test]
fn weakening_at_many_numbers(rt: HostRuntime) -> Result<(), Fail> {
    check_all(&rt, rt.alloc(), weakening::STEPS, weakening::CHANGES)
}

#[test]
fn terms_at_many_numbers(rt: HostRuntime) -> Result<(), Fail> {
    check_all(
        &rt,
        rt.alloc(),
        term_substitution::STEPS,
        term_substitution::CHANGES,
    )
}

#[test]
fn points_at_many_numbers(rt: HostRuntime) -> Result<(), Fail> {
    check_all(
        &rt,
        rt.alloc(),
        point_substitution::STEPS,
        point_substitution::CHANGES,
    )
}

#[test]
fn inversion_of_each_form(rt: HostRuntime) -> Result<(), Fail> {
    check_all(&rt, rt.alloc(), inversion::STEPS, inversion::CHANGES)
}

#[test]
fn inversion_on_shapes(rt: HostRuntime) -> Result<(), Fail> {
    check_all(
        &rt,
        rt.alloc(),
        shape_inversion::STEPS,
        shape_inversion::CHANGES,
    )
}
