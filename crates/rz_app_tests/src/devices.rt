ghost use Rattle.std.specs.Prelude.{◌<◌, None, Some};

use rz_io::{
    DiskFiles, Files, GoodFiles, GoodSink, MemoryFiles, MemorySink, Opener, ReadFault, ReaderFiles,
    Sink, StdSink, WriteFault, WriterSink, write_all,
};
use rz_rules::{Bytes, Items, Name, Numbers, OutOfMemory};
use std::alloc::Global;
use std::fmt::Display;
use std::io::{ErrorKind, Read, Write};
use std::test::Fail;
use std::{env, fs, io, process};

/// Whether a read of this name gives this answer, where memory was found for it.
fn reads<F: Files>(
    store: &mut F,
    name: &str,
    want: Result<&[u8], ReadFault>,
) -> Result<bool, OutOfMemory> {
    match (store.read(name), want) {
        (Err(ReadFault::OutOfMemory), _) => Err(OutOfMemory),
        (Ok(bytes), Ok(want)) => Ok(bytes.as_slice() == want),
        (Err(fault), Err(want)) => Ok(fault == want),
        _ => Ok(false),
    }
}

/// A file `a` that says one, an empty file `b`, and a second `a` that doesn't count.
fn three_files(alloc: Global) -> Result<Vec<(Name, Bytes)>, OutOfMemory> {
    let mut files = Vec::new(alloc);
    for (name, text) in [("a", "one"), ("b", ""), ("a", "two")] {
        let name = Name::from_text(alloc, name)?;
        let bytes = Bytes::from_slice(alloc, text.as_bytes())?;
        files.push((name, bytes))?;
    }
    Ok(files)
}

#[test]
fn a_good_store_answers_what_it_tells(rt: HostRuntime) -> Result<(), Fail> {
    let alloc = rt.alloc();
    let mut good = GoodFiles::new(three_files(alloc)?);
    assert!(rt; reads(&mut good, "a", Ok(b"one"))?);
    assert!(rt; reads(&mut good, "b", Ok(b""))?);
    assert!(rt; reads(&mut good, "c", Err(ReadFault::Missing))?);
    assert_eq!(rt; good.faults(), 0);
    Ok(())
}

const ONE: Result<&[u8], ReadFault> = Ok(b"one");

const MISSING: Result<&[u8], ReadFault> = Err(ReadFault::Missing);

const FAILED: Result<&[u8], ReadFault> = Err(ReadFault::Failed);

/// The calls that fail, what three reads of a, c and a answer, and the faults then.
const READS: [(&[u64], [Result<&[u8], ReadFault>; 3], u64); 5] = [
    (&[], [ONE, MISSING, ONE], 0),
    (&[0], [FAILED, MISSING, ONE], 1),
    (&[1, 3], [ONE, FAILED, ONE], 1),
    (&[2, 0, 2], [FAILED, MISSING, FAILED], 2),
    (&[0, 1, 2], [FAILED, FAILED, FAILED], 3),
];

/// Whether three reads of a, c and a answer so, and leave so many faults.
fn reads_thrice(
    alloc: Global,
    fails: &[u64],
    wanted: [Result<&[u8], ReadFault>; 3],
    faults: u64,
) -> Result<bool, OutOfMemory> {
    let [first, second, third] = wanted;
    let fails = Numbers::from_slice(alloc, fails)?;
    let mut store = MemoryFiles::new(three_files(alloc)?, fails);
    Ok(
        reads(&mut store, "a", first)?
            && reads(&mut store, "c", second)?
            && reads(&mut store, "a", third)?
            && store.faults() == faults,
    )
}

#[test]
fn a_store_fails_at_the_listed_calls(rt: HostRuntime) -> Result<(), Fail> {
    for (place, (fails, wanted, faults)) in READS.iter().enumerate() {
        assert!(rt;
            reads_thrice(rt.alloc(), fails, *wanted, *faults)?,
            "row {place}"
        );
    }
    Ok(())
}

const TEXT: &[u8] = b"yes 1\n";

/// Whether a text that is written ends with this front taken, and with the one answer for that,
/// where memory was found for it. Where it wasn't, a front of that front was taken.
fn leaves(alloc: Global, chunk: u64, fails: &[u64], front: &[u8]) -> Result<bool, OutOfMemory>
    requires { 0 < chunk }
{
    let mut out = MemorySink::new(alloc, chunk, Numbers::from_slice(alloc, fails)?);
    let answer = write_all(&mut out, &Bytes::from_slice(alloc, TEXT)?);
    let taken = out.taken().as_slice();
    if answer == Err(WriteFault::OutOfMemory) && front.starts_with(taken) && out.faults() == 0 {
        return Err(OutOfMemory);
    }
    let all = front == TEXT;
    let wanted = if all { Ok(()) } else { Err(WriteFault::Failed) };
    let faults = if all { 0 } else { 1 };
    Ok(answer == wanted && taken == front && out.faults() == faults)
}

#[test]
fn a_sink_takes_chunks_up_to_the_first_failure(rt: HostRuntime) -> Result<(), Fail> {
    let alloc = rt.alloc();
    for call in 0..7u64 {
        assert!(rt;
            leaves(alloc, 1, &[call], &TEXT[..call as usize])?,
            "at {call}"
        );
    }
    assert!(rt; leaves(alloc, 1, &[5, 2], &TEXT[..2])?);
    assert!(rt; leaves(alloc, 4, &[1], &TEXT[..4])?);
    assert!(rt; leaves(alloc, 8, &[0], &TEXT[..0])?);
    assert!(rt; leaves(alloc, 8, &[1], TEXT)?);
    assert!(rt; leaves(alloc, 8, &[], TEXT)?);
    Ok(())
}

#[test]
fn a_good_sink_takes_all(rt: HostRuntime) -> Result<(), Fail> {
    let alloc = rt.alloc();
    let mut good = GoodSink::new(alloc);
    write_all(&mut good, &Bytes::from_slice(alloc, b"yes")?)?;
    write_all(&mut good, &Bytes::new(alloc))?;
    write_all(&mut good, &Bytes::from_slice(alloc, b" 1\n")?)?;
    assert_eq!(rt; good.taken().as_slice(), TEXT);
    assert_eq!(rt; good.faults(), 0);
    Ok(())
}

/// A sink that takes two bytes at most, and tells what it was offered.
#[derive(Drop)]
struct Witness {
    alloc: Global,
    offers: Items<(Bytes, u64)>,
}

impl Sink for Witness {
    ghost taken = { λ _. None };

    ghost offers = { λ witness. Some witness.offers };

    ghost count = { λ _. 0 };

    fn write(&mut self, piece: &[u8]) -> Result<u64, WriteFault> {
        let taken = (piece.len() as u64).min(2);
        let offered = Bytes::from_slice(self.alloc, piece)?;
        self.offers.push((offered, taken))?;
        Ok(taken)
    }

    fn faults(&self) -> u64 {
        0
    }
}

#[test]
fn each_write_offers_all_that_is_left(rt: HostRuntime) -> Result<(), Fail> {
    let alloc = rt.alloc();
    let mut out = Witness {
        alloc,
        offers: Items::new(alloc),
    };
    write_all(&mut out, &Bytes::from_slice(alloc, b"five.")?)?;
    assert_eq!(rt; out.faults(), 0);
    let offers = [("five.", 2), ("ve.", 2), (".", 1)];
    assert_eq!(rt; out.offers.len(), 3);
    for ((piece, taken), (wanted, count)) in out.offers.as_slice().iter().zip(offers.iter()) {
        assert_eq!(rt; piece.as_slice(), wanted.as_bytes());
        assert_eq!(rt; *taken, *count);
    }
    Ok(())
}

/// A reader that gives one byte a turn, and fails or ends after some.
#[derive(Drop)]
struct Slow {
    left: u64,
    fails: bool,
}

impl Read for Slow {
    fn read(&mut self, buffer: &mut [u8]) -> io::Result<usize> {
        if self.left == 0 && self.fails {
            return Err(io::Error::from(ErrorKind::BrokenPipe));
        }
        if self.left == 0 || buffer.is_empty() {
            return Ok(0);
        }
        self.left -= 1;
        buffer[0] = b'x';
        Ok(1)
    }
}

/// A reader or a writer that a signal interrupts before each byte or piece.
#[derive(Drop)]
struct Interrupted<D> {
    device: D,
    ready: bool,
}

impl<R: Read> Read for Interrupted<R> {
    ghost remaining = { λ reader. R.remaining reader.device };

    fn read(&mut self, buffer: &mut [u8]) -> io::Result<usize> {
        self.ready = !self.ready;
        if self.ready {
            return Err(io::Error::from(ErrorKind::Interrupted));
        }
        self.device.read(buffer)
    }
}

impl<W: Write> Write for Interrupted<W> {
    ghost contents = { λ writer. W.contents writer.device };

    fn write(&mut self, piece: &[u8]) -> io::Result<usize> {
        self.ready = !self.ready;
        if self.ready {
            return Err(io::Error::from(ErrorKind::Interrupted));
        }
        self.device.write(&piece[..piece.len().min(4)])
    }

    fn flush(&mut self) -> io::Result<()> {
        self.device.flush()
    }
}

/// Opens one text under each name.
#[derive(Drop)]
struct OneText<'a> {
    text: &'a [u8],
}

impl<'a> Opener for OneText<'a> {
    type Reader = Interrupted<&'a [u8]>;

    ghost holds = { λ opener _. Some opener.text.now };

    fn open(&self, _name: &str) -> io::Result<Interrupted<&'a [u8]>> {
        Ok(Interrupted {
            device: self.text,
            ready: false,
        })
    }
}

/// Opens no file, for this reason.
#[derive(Drop)]
struct Closed {
    kind: ErrorKind,
}

impl Opener for Closed {
    type Reader = Slow;

    ghost holds = { λ _ _. None };

    fn open(&self, _name: &str) -> io::Result<Slow> {
        Err(io::Error::from(self.kind))
    }
}

#[test]
fn a_file_that_is_not_opened_is_a_fault(rt: HostRuntime) -> Result<(), Fail> {
    let rows = [
        (ErrorKind::NotFound, ReadFault::Failed, 1),
        (ErrorKind::OutOfMemory, ReadFault::OutOfMemory, 0),
    ];
    for (kind, fault, faults) in rows {
        let mut files = ReaderFiles::from_opener(rt.alloc(), Closed { kind });
        assert_eq!(rt; files.read("a").err(), Some(fault));
        assert_eq!(rt; files.faults(), faults);
    }
    Ok(())
}

/// Opens three bytes under each name, each after an interruption, that end then or fail.
#[derive(Drop)]
struct ThreeBytes {
    fails: bool,
}

impl Opener for ThreeBytes {
    type Reader = Interrupted<Slow>;

    ghost holds = { λ _ _. None };

    fn open(&self, _name: &str) -> io::Result<Interrupted<Slow>> {
        let device = Slow {
            left: 3,
            fails: self.fails,
        };
        Ok(Interrupted {
            device,
            ready: false,
        })
    }
}

#[test]
fn a_reader_is_read_to_its_end(rt: HostRuntime) -> Result<(), Fail> {
    let alloc = rt.alloc();
    let mut files = ReaderFiles::from_opener(alloc, ThreeBytes { fails: false });
    assert!(rt; reads(&mut files, "a", Ok(b"xxx"))?);
    let mut files = ReaderFiles::from_opener(alloc, ThreeBytes { fails: true });
    assert!(rt; reads(&mut files, "a", FAILED)?);
    assert_eq!(rt; files.faults(), 1);

    let mut files = ReaderFiles::from_opener(alloc, OneText { text: b"one" });
    assert!(rt; reads(&mut files, "a", ONE)?);
    assert!(rt; reads(&mut files, "a", ONE)?);
    assert_eq!(rt; files.faults(), 0);
    Ok(())
}

#[test]
fn a_writer_is_handed_all(rt: HostRuntime) -> Result<(), Fail> {
    let alloc = rt.alloc();
    let mut out = WriterSink::from_writer(Interrupted {
        device: Vec::new(alloc),
        ready: false,
    });
    write_all(&mut out, &Bytes::from_slice(alloc, TEXT)?)?;
    assert_eq!(rt; out.writer().device.as_slice(), TEXT);
    assert_eq!(rt; out.faults(), 0);
    Ok(())
}

#[test]
fn the_disk_gives_a_whole_file_or_fails(rt: HostRuntime) -> Result<(), Fail> {
    let alloc = rt.alloc();
    let folder = env::temp_dir(&rt)?;
    let name = format!(in alloc;
        "{}/rz_io_{}",
        folder.to_string_lossy(),
        process::id(rt.process())
    )?;
    // More than one turn takes.
    let mut text = Vec::new(alloc);
    text.resize(70_000, 0)?;
    fs::write(&rt, name.as_str(), text.as_slice())?;

    let mut disk = DiskFiles::new(&rt);
    let whole = reads(&mut disk, name.as_str(), Ok(text.as_slice()));
    fs::remove_file(&rt, name.as_str())?;
    assert!(rt; whole?);
    assert_eq!(rt; disk.faults(), 0);

    assert!(rt; reads(&mut disk, name.as_str(), FAILED)?);
    assert!(rt; reads(&mut disk, folder.to_string_lossy(), FAILED)?);
    assert_eq!(rt; disk.faults(), 2);
    Ok(())
}

/// An output that takes nothing, or fails so.
#[derive(Drop)]
struct Stuck {
    kind: Option<ErrorKind>,
}

impl Print for Stuck {
    fn print<D: Display + Drop>(&self, _value: D) -> io::Result<()> {
        Ok(())
    }

    fn println<D: Display + Drop>(&self, _value: D) -> io::Result<()> {
        Ok(())
    }

    fn write_all(&self, _bytes: &[u8]) -> io::Result<()> {
        Ok(())
    }

    fn write_some(&self, _bytes: &[u8]) -> io::Result<usize> {
        match self.kind {
            Some(kind) => Err(io::Error::from(kind)),
            None => Ok(0),
        }
    }
}

#[test]
fn the_output_counts_its_faults(rt: HostRuntime) -> Result<(), Fail> {
    let alloc = rt.alloc();
    let text = Bytes::from_slice(alloc, b"yes 1\n")?;
    let mut out = StdSink::new(&rt);
    write_all(&mut out, &text)?;
    assert_eq!(rt; out.faults(), 0);

    let rows = [
        (None, WriteFault::Failed, 1),
        (Some(ErrorKind::BrokenPipe), WriteFault::Failed, 1),
        (Some(ErrorKind::OutOfMemory), WriteFault::OutOfMemory, 0),
    ];
    for (kind, fault, faults) in rows {
        let stuck = Stuck { kind };
        let mut out = StdSink::new(&stuck);
        assert_eq!(rt; write_all(&mut out, &text), Err(fault));
        assert_eq!(rt; out.faults(), faults);
    }
    Ok(())
}
