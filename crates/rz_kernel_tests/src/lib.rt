//! Tests of derivation files and of the kernel.
#![tactic(auto)]

#[cfg(test)]
mod answers;
#[cfg(test)]
mod derivations;
#[cfg(test)]
mod files;
#[cfg(test)]
mod one_line;
#[cfg(test)]
mod rows;
#[cfg(test)]
mod small_files;
#[cfg(test)]
mod structural_rows;
