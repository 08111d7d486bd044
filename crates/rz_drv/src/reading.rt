//! A file, item by item.

ghost use Rattle.std.specs.Prelude.{◌≡◌, ◌≢◌, [], ◌∷◌, ◌++◌, All, IfOk, IfErr, IfSome, IfNone, OnErr};
ghost use Rattle.rz_drv.specs.Reading.{HasRead, IsReading, Reads, Stays, Ends, IsFirstFault, IsNextFault, IsLastLine};

use crate::faults::DrvFault;
use crate::items::{Item, item_of};
use crate::outlines::Outline;
use std::alloc::Global;

const HEADER: &[u8] = b"rzk-derivation 1";

const END: &[u8] = b"end";

/// Reads a file item by item, each as soon as it is asked for.
#[derive(Drop)]
pub struct Reader<'a> {
    /// The lines that are left.
    rest: &'a [u8],
    /// How many lines were read.
    line: u64,
    /// What the items so far are for those behind them.
    outline: Outline,
}

impl<'a> Reader<'a> {
    /// A reader behind the first line. It fails where that isn't a file's first line.
    pub fn open(alloc: Global, bytes: &'a [u8]) -> Result<Reader<'a>, DrvFault>
        ensures reader { IfOk result (HasRead bytes.now []) }
        ensures fault { IfErr result (IsFirstFault bytes.now) }
    {
        let Some((first, rest)) = first_line(bytes) else {
            return Err(DrvFault::Malformed(1));
        };
        if first != HEADER {
            return Err(DrvFault::Malformed(1));
        }
        Ok(Reader {
            rest,
            line: 1,
            outline: Outline::new(alloc),
        })
    }

    /// The next item; `None` at the end of the file. It fails at a line that isn't in the grammar.
    pub fn next(&mut self, alloc: Global) -> Result<Option<Item>, DrvFault>
        requires { IsReading self.old }
        ensures item { IfOk result (λ next. IfSome next (Reads self.old self.new)) }
        ensures end { IfOk result (λ next. IfNone next (Ends self.old)) }
        ensures end_stays { IfOk result (λ next. IfNone next (Stays self.old self.new)) }
        ensures fault { IfErr result (IsNextFault self.old) }
        ensures fault_stays { OnErr result (Stays self.old self.new) }
    {
        let next = self.line + 1;
        let Some((line, rest)) = first_line(self.rest) else {
            return Err(DrvFault::Malformed(next));
        };
        if line == END {
            if rest.is_empty() {
                return Ok(None);
            }
            return Err(DrvFault::Malformed(next + 1));
        }
        let Some(item) = item_of(alloc, line)? else {
            return Err(DrvFault::Malformed(next));
        };
        if !self.outline.takes(&item) {
            return Err(DrvFault::Malformed(next));
        }
        self.outline.add(&item)?;
        self.rest = rest;
        self.line = next;
        Ok(Some(item))
    }

    /// The number of the line that was read last, counted from 1.
    pub fn line(&self) -> u64
        ensures { IsLastLine self.now result }
    {
        self.line
    }
}

/// The first line without its line feed, and what follows it; `None` where there is no line feed.
fn first_line(bytes: &[u8]) -> Option<(&[u8], &[u8])>
    ensures parts { IfSome result (λ parts. bytes.now ≡ parts.0.now ++ 10 ∷ parts.1.now) }
    ensures first { IfSome result (λ parts. All (λ b. b ≢ 10) parts.0.now) }
    ensures none { IfNone result (All (λ b. b ≢ 10) bytes.now) }
{
    let end = bytes.iter().position(|b| *b == b'\n')?;
    Some((&bytes[..end], &bytes[end + 1..]))
}
