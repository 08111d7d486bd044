//! The text of a refutation: `no`, and a line for each coordinate with its rank.

ghost use Rattle.std.specs.Prelude.{◌≡◌, ◌++◌, IfOk, OnOk, codes, length};
ghost use Rattle.std.specs.List.{flat_map, slice_index_or};
ghost use Rattle.rz_app.specs.Answer.{coordinate_text, line, path_text, rank_line, rank_lines, variable_name};

use rz_rules::{Bytes, Coord, Name, OutOfMemory};
use std::alloc::Global;

/// The text of ranks that refute a sequent with these names.
pub fn refutation(
    alloc: Global,
    names: &[Name],
    ranks: &[(Coord, u64)],
) -> Result<Bytes, OutOfMemory>
    ensures { IfOk result (λ text. text ≡ line (codes "no") ++ rank_lines names.now ranks.now) }
{
    let mut text = Bytes::from_slice(alloc, b"no\n")?;
    let greatest = ranks.len() as u64 + 1;
    for (coordinate, rank) in ranks {
        add_rank(alloc, &mut text, names, coordinate, *rank, greatest)?;
    }
    Ok(text)
}

/// Adds the line of a coordinate with its rank.
fn add_rank(
    alloc: Global,
    text: &mut Bytes,
    names: &[Name],
    coordinate: &Coord,
    rank: u64,
    greatest: u64,
) -> Result<(), OutOfMemory>
    ensures { OnOk result
        (text.new ≡ text.old ++ rank_line names.now greatest (coordinate.now, rank)) }
{
    add_coordinate(text, names, coordinate)?;
    let ranked = format!(in alloc; " {rank}/{greatest}\n")?;
    text.extend_from_slice(ranked.as_bytes())
}

/// Adds a coordinate: the name of its variable, and its path.
fn add_coordinate(text: &mut Bytes, names: &[Name], coordinate: &Coord) -> Result<(), OutOfMemory>
    ensures { OnOk result (text.new ≡ text.old ++ coordinate_text names.now coordinate.now) }
{
    match coordinate {
        Coord::Zero => text.extend_from_slice(b"0_2"),
        Coord::One => text.extend_from_slice(b"1_2"),
        Coord::Of { variable, path } => {
            text.extend_from_slice(name_of(names, *variable))?;
            add_path(text, path.as_str().as_bytes())
        }
    }
}

/// The name of a variable, whose index counts the names behind it; empty where there is none.
fn name_of(names: &[Name], variable: u64) -> &[u8]
    ensures { result.now ≡ variable_name names.now variable }
{
    match names.iter().rev().nth(variable as usize) {
        Some(name) => name.as_str().as_bytes(),
        None => b"",
    }
}

/// Adds the letters of a path, each behind a point.
fn add_path(text: &mut Bytes, path: &[u8]) -> Result<(), OutOfMemory>
    ensures { OnOk result (text.new ≡ text.old ++ path_text path.now) }
{
    for letter in path {
        text.push(b'.')?;
        text.push(*letter)?;
    }
    Ok(())
}
