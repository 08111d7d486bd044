//! The top call.

ghost use Rattle.std.specs.Prelude.{◌≡◌, ◌≢◌, ◌≤◌, ◌-◌, ◌⊎◌, ℕ, List, [], None, All, map, string_bytes};
ghost use Rattle.rz_io.specs.Device.{Rose, Gains};
ghost use Rattle.rz_rules.specs.Validity.{IsValid};
ghost use Rattle.rz_tope_query.specs.Sequent.{Sequent};
ghost use Rattle.rz_app.specs.Command.{AsksAbout, IsNoCommand, command, files_of};
ghost use Rattle.rz_app.specs.Answer.{Answers, CountsSteps, HasFewCoordinates, IsStatus};
ghost use Rattle.rz_app.specs.Fault.{CannotRead, BreaksOff, IsPresent};

use crate::page::{Page, compose};
use rz_io::{Files, Sink, WriteFault, write_all};
use rz_rules::Steps;
use rz_tope_query::one_sequent;
use std::alloc::Global;
use std::sync::ledger::Ledger;

/// The status where the output can't be written.
const CANNOT_WRITE: u8 = 4;

/// The status for want of memory.
const NO_MEMORY: u8 = 5;

/// Does what the words after the program's name ask for, writes the answer, and answers the
/// status: 0 for a yes, 1 for a no, 2 where the words are no command, 3 where a file can't be
/// read, 4 where the output can't be written, 5 for want of memory, which may come at any time, and
/// 7 where more than eight coordinates occur in a sequent. The words are looked at first, then the
/// files are read in their order, then the work is done, then all is written.
pub fn rzk<F: Files, S: Sink, L: Ledger>(
    alloc: Global,
    words: &[String],
    files: &mut F,
    out: &mut S,
    steps: &mut Steps<L>,
) -> u8
    // All was written, and it answers the words over what the store tells.
    ensures answered { result ≢ 3 → result ≢ 4 → result ≢ 5 → (text : List ℕ)
        × Answers (map string_bytes words.now) (F.told files.old) text result
        × Gains (S.taken out.old) (S.taken out.new) text }
    ensures known { (result ≡ 3) ⊎ (result ≡ 4) ⊎ (result ≡ 5)
        ⊎ IsStatus (command (map string_bytes words.now)) result }

    ensures no_command { result ≡ 2 → IsNoCommand (command (map string_bytes words.now)) }
    ensures no_command_only { IsNoCommand (command (map string_bytes words.now))
        → result ≢ 4 → result ≢ 5 → result ≡ 2 }

    // A sequent of at most eight coordinates: 0 where it holds, and 1 where it doesn't; a wider one:
    // 7. What 0 and 1 come with is in `answered`.
    ensures holds { (sequent : Sequent) → AsksAbout (command (map string_bytes words.now)) sequent
        → HasFewCoordinates sequent → IsValid sequent.context sequent.goal
        → result ≢ 4 → result ≢ 5 → result ≡ 0 }
    ensures refuted { (sequent : Sequent) → AsksAbout (command (map string_bytes words.now)) sequent
        → HasFewCoordinates sequent → ¬ IsValid sequent.context sequent.goal
        → result ≢ 4 → result ≢ 5 → result ≡ 1 }
    ensures silent { (sequent : Sequent) → AsksAbout (command (map string_bytes words.now)) sequent
        → ¬ HasFewCoordinates sequent → result ≢ 4 → result ≢ 5 → result ≡ 7 }
    ensures silent_only { result ≡ 7 → (sequent : Sequent)
        × AsksAbout (command (map string_bytes words.now)) sequent × ¬ HasFewCoordinates sequent }

    ensures cannot_read { result ≡ 3 → (text : List ℕ)
        × CannotRead (files_of (command (map string_bytes words.now))) (F.told files.old)
        (F.count files.old) (F.count files.new) text
        × Gains (S.taken out.old) (S.taken out.new) text }

    ensures cannot_write { result ≡ 4 → Rose (S.count out.old) (S.count out.new) }
    ensures broken_off { result ≡ 4 → BreaksOff (command (map string_bytes words.now))
        (F.told files.old) (F.count files.old) (F.count files.new)
        (S.taken out.old) (S.taken out.new) }

    // Nothing was written, or the sink wanted memory on the way.
    ensures no_memory { result ≡ 5 → Gains (S.taken out.old) (S.taken out.new) []
        ⊎ BreaksOff (command (map string_bytes words.now))
        (F.told files.old) (F.count files.old) (F.count files.new)
        (S.taken out.old) (S.taken out.new) }

    // Where each file is there and no fault was counted, all are read and the answer is written.
    ensures complete { All (λ name. IsPresent (F.told files.old name))
        (files_of (command (map string_bytes words.now)))
        → ¬ Rose (F.count files.old) (F.count files.new)
        → ¬ Rose (S.count out.old) (S.count out.new)
        → (result ≢ 3) × (result ≢ 4) }

    ensures steps { CountsSteps (command (map string_bytes words.now)) (F.told files.old) result
        (steps.new - steps.old) }
    ensures steps_never_fall { steps.old ≤ steps.new }

    ensures told { (name : List ℕ) → F.told files.new name ≡ F.told files.old name }
    ensures files_count { F.count files.old ≤ F.count files.new }
    ensures out_count { S.count out.old ≤ S.count out.new }
{
    one_sequent();
    let Ok(Page { text, status }) = compose(alloc, words, files) else {
        return NO_MEMORY;
    };
    match write_all(out, &text) {
        Ok(()) => status,
        Err(WriteFault::Failed) => CANNOT_WRITE,
        Err(WriteFault::OutOfMemory) => NO_MEMORY,
    }
}
