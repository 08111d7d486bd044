//! A sink that takes bytes in pieces.

ghost use Rattle.std.specs.Prelude.{◌≡◌, ℕ, ◌≤◌, ◌<◌, Option, List, [], length, take, IfOk, OnOk, OnErr, IsOk, IsErrOf};
ghost use Rattle.rz_io.specs.Device.{Rose, Gains, GainsPart, Offer, offers_of, IsOffered};
ghost use Rattle.rz_io.specs.declared.sink.WriteFault.TheVariants.{OutOfMemory};

use rz_rules::Bytes;
use std::alloc::AllocError;

/// Why a write took nothing.
#[derive(Clone, Copy, Debug, PartialEq, Eq)]
pub enum WriteFault {
    /// The sink failed, and counted that.
    Failed,
    /// Memory ran out, which may be at any time.
    OutOfMemory,
}

impl From<rz_rules::OutOfMemory> for WriteFault {
    ghost from_gives = { λ _ e. e ≡ OutOfMemory };

    fn from(_error: rz_rules::OutOfMemory) -> Self {
        WriteFault::OutOfMemory
    }
}

impl From<AllocError> for WriteFault {
    ghost from_gives = { λ _ e. e ≡ OutOfMemory };

    fn from(_error: AllocError) -> Self {
        WriteFault::OutOfMemory
    }
}

/// A sink that is written to piece by piece.
pub trait Sink {
    /// All bytes that it took so far, or `None` where it doesn't tell.
    ghost taken: { Self → Option (List ℕ) };

    /// All pieces that it was offered so far, or `None` where it doesn't tell.
    ghost offers: { Self → Option (List Offer) };

    /// How many faults there were so far, up to 2^64 - 1.
    ghost count: { Self → ℕ };

    /// Takes some bytes from the front of a piece, at least one, and answers how many.
    fn write(&mut self, piece: &[u8]) -> Result<u64, WriteFault>
        requires { 0 < length piece.now }

        ensures some { IfOk result (λ n. 0 < n) }
        ensures within { IfOk result (λ n. n ≤ length piece.now) }
        ensures ok { IfOk result (λ n. Gains (taken self.old) (taken self.new) (take n piece.now)) }
        ensures err { OnErr result (Gains (taken self.old) (taken self.new) []) }
        ensures offered { Gains (offers self.old) (offers self.new) (offers_of piece.now result) }

        ensures failed { IsErrOf result WriteFault.Failed → Rose (count self.old) (count self.new) }
        ensures never_falls { count self.old ≤ count self.new };

    /// How many faults there were so far; the count stops at 2^64 - 1.
    fn faults(&self) -> u64
        ensures { result ≡ count self.now };
}

/// Writes all bytes, from the front. The first write that is refused ends the call with its fault.
pub fn write_all<S: Sink>(out: &mut S, bytes: &Bytes) -> Result<(), WriteFault>
    ensures all { OnOk result (Gains (S.taken out.old) (S.taken out.new) bytes.now) }
    ensures part { OnErr result (GainsPart (S.taken out.old) (S.taken out.new) bytes.now) }
    ensures offered { IsOffered (S.offers out.old) (S.offers out.new) bytes.now }

    ensures failed { IsErrOf result WriteFault.Failed → Rose (S.count out.old) (S.count out.new) }
    ensures never_falls { S.count out.old ≤ S.count out.new }

    // No bytes make no call.
    ensures empty_succeeds { bytes.now ≡ [] → IsOk result }
    ensures empty_keeps { bytes.now ≡ [] → out.new ≡ out.old }
{
    let mut left = bytes.as_slice();
    while !left.is_empty() {
        let taken = out.write(left)?;
        left = &left[taken as usize..];
    }
    Ok(())
}
