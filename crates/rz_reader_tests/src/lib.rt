//! Tests of what reads the text of a source, of what prints it, and of shapes.
#![tactic(auto)]

#[cfg(test)]
mod lexing;
#[cfg(test)]
mod literate;
#[cfg(test)]
mod parsing;
#[cfg(test)]
mod printing;
#[cfg(test)]
mod sequents;
#[cfg(test)]
mod shapes;
#[cfg(test)]
mod show;
