//! A store over whatever opens files as readers.

ghost use Rattle.std.specs.Prelude.{◌≡◌, ◌≢◌, ◌⊎◌, ◌<◌, ◌≤◌, ◌++◌, List, ℕ, Option, Some, length, IsFalse, IfOk, IfErr, IfSome, OnOk, IsErrOf, vec_len};
ghost use Rattle.std.specs.IoError.{error_kind};
ghost use Rattle.std.specs.Io.KnownBytes.{Consumes, IsAtEnd};
ghost use Rattle.rz_io.specs.Device.{told_of, count_after};

use crate::turns::{TURNS, is_interrupted};
use crate::{Files, ReadFault};
use rz_rules::Bytes;
use std::alloc::{AllocError, Global};
use std::io;
use std::io::{ErrorKind, Read};
use std::marker::Model;

/// The most bytes that one turn of a read takes.
const MOST: usize = 65_536;

/// Opens files by name, each as a reader.
pub trait Opener {
    /// A file that is open.
    type Reader: Read + Drop;

    /// The bytes of the file of a name, or `None` where they aren't known.
    ghost holds: { Self → List ℕ → Option (List ℕ) };

    /// Opens the file of a name at its beginning.
    fn open(&self, name: &str) -> io::Result<Self::Reader>
        ensures { IfOk result (λ reader. IfSome (holds self.now name.now)
            (λ bytes. Self.Reader.remaining reader ≡ Some bytes)) };
}

/// A store of the files that an opener opens, each of which is read to its end.
#[derive(Drop)]
pub struct ReaderFiles<O> {
    alloc: Global,
    opener: O,
    faults: u64,
}

impl<O> Model for ReaderFiles<O> {
    ghost use Rattle.rz_io.specs.Device.{Adapter};

    ghost Value = { Adapter O };

    ghost view = { λ store. record { device = store.opener; faults = store.faults } };
}

impl<O> ReaderFiles<O> {
    /// The files that an opener opens, with no fault yet. Reads allocate here.
    pub fn from_opener(alloc: Global, opener: O) -> Self
        ensures { result ≡ record { device = opener; faults = 0 } }
    {
        ReaderFiles {
            alloc,
            opener,
            faults: 0,
        }
    }
}

impl<O: Opener> Files for ReaderFiles<O> {
    ghost told = { λ store name. told_of (O.holds store.device name) };

    ghost count = { λ store. store.faults };

    // A name that is missing or a directory is a fault like any other.
    fn read(&mut self, name: &str) -> Result<Bytes, ReadFault>
        ensures bytes { IfOk result (λ bytes. IfSome (O.holds self.old.device name.now)
            (λ held. bytes ≡ held)) }
        ensures never_missing { IsErrOf result ReadFault.Missing → ⊥ }
        ensures failed { IsErrOf result ReadFault.Failed
            → self.new ≡ record self.old { faults = count_after self.old.faults } }
        ensures other { IsErrOf result ReadFault.Failed ⊎ (self.new ≡ self.old) }
        ensures kept { self.new.device ≡ self.old.device }
        ensures never_falls { self.old.faults ≤ self.new.faults }
    {
        match read_file(self.alloc, &self.opener, name) {
            Ok(bytes) => Ok(bytes),
            Err(e) if e.kind() == ErrorKind::OutOfMemory => Err(ReadFault::OutOfMemory),
            Err(_) => {
                self.faults = self.faults.saturating_add(1);
                Err(ReadFault::Failed)
            }
        }
    }

    fn faults(&self) -> u64 {
        self.faults
    }
}

/// The bytes of the file of a name.
fn read_file<O: Opener>(alloc: Global, opener: &O, name: &str) -> io::Result<Bytes>
    ensures { IfOk result (λ bytes. IfSome (O.holds opener.now name.now) (λ held. bytes ≡ held)) }
{
    let mut file = opener.open(name)?;
    read_whole(alloc, &mut file)
}

/// All that a reader has left. One that doesn't end in time is an error.
pub fn read_whole<R: Read>(alloc: Global, reader: &mut R) -> io::Result<Bytes>
    ensures whole { IfOk result (λ bytes. IfSome (R.remaining reader.old)
        (λ known. bytes ≡ known)) }
    ensures retried { IfErr result (λ e. error_kind e ≢ ErrorKind.Interrupted) }
{
    let mut buffer = zeros(alloc, MOST)?;
    let mut bytes = Bytes::new(alloc);
    for _ in 0..=TURNS {
        if !read_turn(reader, buffer.as_mut_slice(), &mut bytes)? {
            return Ok(bytes);
        }
    }
    Err(io::Error::from(ErrorKind::TimedOut))
}

/// Reads once, what fits into the buffer, and answers whether there may be more. A read that a
/// signal interrupts gives nothing, and there may be more.
fn read_turn<R: Read>(reader: &mut R, buffer: &mut [u8], bytes: &mut Bytes) -> io::Result<bool>
    requires { 0 < length buffer.old }
    ensures moved { OnOk result ((piece : List ℕ)
        × Consumes (R.remaining reader.old) (R.remaining reader.new) piece
        × (bytes.new ≡ bytes.old ++ piece)) }
    ensures end { IfOk result (λ more. IsFalse more → IsAtEnd (R.remaining reader.new)) }
    ensures retried { IfErr result (λ e. error_kind e ≢ ErrorKind.Interrupted) }
{
    let taken = match reader.read(buffer) {
        Ok(taken) => taken,
        Err(e) if is_interrupted(&e) => return Ok(true),
        Err(e) => return Err(e),
    };
    bytes
        .extend_from_slice(&buffer[..taken])
        .map_err(|_| io::Error::from(ErrorKind::OutOfMemory))?;
    Ok(taken > 0)
}

/// So many zeros.
pub fn zeros(alloc: Global, count: usize) -> Result<Vec<u8>, AllocError>
    ensures { IfOk result (λ bytes. vec_len bytes ≡ count) }
{
    vec![in alloc; 0u8; count]
}
