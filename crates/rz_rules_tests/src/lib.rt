//! Tests of the plain types, of the rows and their forms, and that the laws are called.
#![tactic(auto)]

#[cfg(test)]
mod coordinates;
#[cfg(test)]
mod metatheory;
#[cfg(test)]
mod reduction;
#[cfg(test)]
mod tables;
#[cfg(test)]
mod values;
#[cfg(test)]
mod verdicts;
