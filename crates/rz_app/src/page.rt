//! The text of a call, composed whole before it is written.

ghost use Rattle.std.specs.Prelude.{◌≡◌, ℕ, ◌≤◌, ◌++◌, List, [], Some, IfOk, map, codes, string_bytes};
ghost use Rattle.rz_app.specs.Command.{Kernel, Tope, command};
ghost use Rattle.rz_app.specs.Answer.{Writes, decision_status, decision_text, line, status_of, text_of};
ghost use Rattle.rz_app.specs.Fault.{Composes};

use crate::command::{Request, parse};
use crate::refutation::refutation;
use rz_io::{Files, ReadFault};
use rz_kernel::{KernelAnswer, kernel};
use rz_rules::{Bytes, OutOfMemory};
use rz_tope_query::{Decision, decide};
use std::alloc::Global;

/// The status where all went well.
const DONE: u8 = 0;

/// The status where a file is refused, or a sequent doesn't hold.
const REFUSED: u8 = 1;

/// The status where the words are no command.
const NO_COMMAND: u8 = 2;

/// The status where more coordinates occur in a sequent than are decided.
const SILENT: u8 = 7;

/// The status where a file can't be read.
const CANNOT_READ: u8 = 3;

/// A text, and the status of a call that writes it whole.
#[derive(Drop)]
pub struct Page {
    pub text: Bytes,
    pub status: u8,
}

const USAGE: &str =
    "usage: rzk check|json|derive FILE.. | kernel FILE | tope SEQUENT | script FILE | sample N\n";

/// What the words ask for, from the files that they name.
pub fn compose<F: Files>(
    alloc: Global,
    words: &[String],
    files: &mut F,
) -> Result<Page, OutOfMemory>
    ensures composed { IfOk result (λ page. Composes (command (map string_bytes words.now))
        (F.told files.old) (F.count files.old) (F.count files.new) page.text page.status) }
    ensures told { (name : List ℕ) → F.told files.new name ≡ F.told files.old name }
    ensures never_falls { F.count files.old ≤ F.count files.new }
{
    match parse(words) {
        Some(Request::Kernel(name)) => kernel_page(alloc, name, files),
        Some(Request::Tope(sequent)) => tope_page(alloc, sequent),
        None => page_of(alloc, USAGE, NO_COMMAND),
    }
}

/// What the kernel answers on a file, or that the file can't be read.
fn kernel_page<F: Files>(alloc: Global, name: &str, files: &mut F) -> Result<Page, OutOfMemory>
    ensures composed { IfOk result (λ page. Composes (Some (Kernel name.now))
        (F.told files.old) (F.count files.old) (F.count files.new) page.text page.status) }
    ensures told { (other : List ℕ) → F.told files.new other ≡ F.told files.old other }
    ensures never_falls { F.count files.old ≤ F.count files.new }
{
    match files.read(name) {
        Ok(bytes) => answer_page(alloc, kernel(alloc, bytes.as_slice())?),
        Err(ReadFault::OutOfMemory) => Err(OutOfMemory),
        Err(ReadFault::Missing | ReadFault::Failed) => cannot_read_page(alloc, name),
    }
}

/// The kernel's answer as a line.
fn answer_page(alloc: Global, answer: KernelAnswer) -> Result<Page, OutOfMemory>
    ensures text { IfOk result (λ page. page.text ≡ text_of answer) }
    ensures status { IfOk result (λ page. page.status ≡ status_of answer) }
{
    let (text, status) = match answer {
        KernelAnswer::Yes(claims) => (format!(in alloc; "yes {claims}\n")?, DONE),
        KernelAnswer::Malformed(line) => (format!(in alloc; "malformed {line}\n")?, REFUSED),
        KernelAnswer::BadRow(line) => (format!(in alloc; "badrow {line}\n")?, REFUSED),
    };
    page_of(alloc, text.as_str(), status)
}

/// What is decided of a sequent, or that the text is none.
fn tope_page(alloc: Global, sequent: &str) -> Result<Page, OutOfMemory>
    ensures { IfOk result (λ page. Writes (Some (Tope sequent.now)) [] page.text page.status) }
{
    match decide(alloc, sequent)? {
        Some(decision) => decision_page(alloc, decision),
        None => page_of(alloc, USAGE, NO_COMMAND),
    }
}

/// A decision as it is written.
fn decision_page(alloc: Global, decision: Decision) -> Result<Page, OutOfMemory>
    ensures text { IfOk result (λ page. page.text ≡ decision_text decision) }
    ensures status { IfOk result (λ page. page.status ≡ decision_status decision) }
{
    match decision {
        Decision::Yes(text) => Ok(Page { text, status: DONE }),
        Decision::No { names, ranks } => {
            let text = refutation(alloc, names.as_slice(), ranks.as_slice())?;
            Ok(Page {
                text,
                status: REFUSED,
            })
        }
        Decision::Silent(count) => {
            let text = format!(in alloc; "silent {count}\n")?;
            page_of(alloc, text.as_str(), SILENT)
        }
    }
}

/// The line on a file that can't be read.
fn cannot_read_page(alloc: Global, name: &str) -> Result<Page, OutOfMemory>
    ensures text { IfOk result (λ page. page.text ≡ line (codes "cannot read " ++ name.now)) }
    ensures status { IfOk result (λ page. page.status ≡ 3) }
{
    let text = format!(in alloc; "cannot read {name}\n")?;
    page_of(alloc, text.as_str(), CANNOT_READ)
}

/// The page of this text.
fn page_of(alloc: Global, text: &str, status: u8) -> Result<Page, OutOfMemory>
    ensures { IfOk result (λ page. page ≡ record { text = text.now; status = status }) }
{
    let text = Bytes::from_slice(alloc, text.as_bytes())?;
    Ok(Page { text, status })
}
