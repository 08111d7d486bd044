//! The program: the top call on the words of the command line, the files of the disk and the
//! standard output. It ends with the call's status.
#![tactic(auto)]

mod stop;

ghost use Rattle.std.specs.Prelude.{◌≡◌, ◌≢◌, ◌⊎◌, ◌<◌, IfOk, map, string_bytes};
ghost use Rattle.rz_app.specs.Command.{IsNoCommand, command};
ghost use Rattle.rz_app.specs.Answer.{IsStatus};

use rz_app::rzk;
use rz_io::{DiskFiles, StdSink};
use rz_rules::Steps;
use std::env;
use std::io::ErrorKind;
use std::marker::Brand;
use std::process::ExitCode;
use std::sync::ledger::{Blank, Ledger};
use stop::Stop;

/// The status for want of memory.
const NO_MEMORY: u8 = 5;

fn main(rt: HostRuntime) -> ExitCode {
    match run::<Brand>(&rt, Blank::new(1)) {
        Ok(status) => ExitCode::from(status),
        Err(stop) => {
            // The status tells it where this can't be written.
            let _ = eprintln!(rt; "{stop}");
            ExitCode::from(NO_MEMORY)
        }
    }
}

/// The status of the top call on the words of the command line.
fn run<L: Ledger>(rt: &HostRuntime, blank: Blank) -> Result<u8, Stop>
    requires name { blank.name ≡ L.name }
    requires parts { blank.parts ≡ L.parts }
    requires some { 0 < blank.parts }
    ensures { IfOk result (λ status. status ≢ 5) }
{
    let words = words(rt)?;
    match call::<L>(rt, words.as_slice(), blank) {
        NO_MEMORY => Err(Stop::NoMemory),
        status => Ok(status),
    }
}

/// The status of the top call on these words, over the disk and the standard output. Nobody counts
/// its steps.
fn call<L: Ledger>(rt: &HostRuntime, words: &[String], blank: Blank) -> u8
    requires name { blank.name ≡ L.name }
    requires parts { blank.parts ≡ L.parts }
    requires some { 0 < blank.parts }

    ensures known { (result ≡ 3) ⊎ (result ≡ 4) ⊎ (result ≡ 5)
        ⊎ IsStatus (command (map string_bytes words.now)) result }
    ensures no_command { IsNoCommand (command (map string_bytes words.now))
        → result ≢ 4 → result ≢ 5 → result ≡ 2 }
{
    let mut files = DiskFiles::new(rt);
    let mut out = StdSink::new(rt);
    let mut steps = Steps::<L>::new(blank);
    rzk(rt.alloc(), words, &mut files, &mut out, &mut steps)
}

/// The words after the program's name; none where one of them isn't UTF-8.
fn words(rt: &HostRuntime) -> Result<Vec<String>, Stop> {
    match env::args(rt) {
        Ok(words) => words
            .skip(1)
            .collect(rt.alloc())
            .map_err(|_| Stop::NoMemory),
        Err(e) if e.kind() == ErrorKind::OutOfMemory => Err(Stop::NoMemory),
        Err(_) => Ok(Vec::new(rt.alloc())),
    }
}

#[cfg(test)]
mod tests {
    use super::*;
    use std::test::Fail;

    #[test]
    fn want_of_memory_is_told(rt: HostRuntime) -> Result<(), Fail> {
        let text = Stop::NoMemory.to_string(rt.alloc())?;
        assert_eq!(rt; text.as_str(), "out of memory");
        Ok(())
    }
}
