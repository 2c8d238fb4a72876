// Lines of the program `handlers`, read from standard input or from its journal, and the journal: a file with a line for each call that was accepted.
#![tactic(auto)]

ghost use Rattle.std.specs.Prelude.{◌≡◌, [], ◌≤◌, length};
ghost use Rattle.journal.specs.Lines.{Answers, fresh, pushed, count, waits_in, left_in, Lies, Scans, ReadsOn};

use say::Console;
use std::cell::Cell;
use std::env::{Env, FillError};
use std::fs::{File, Files, OpenOptions};
use std::io;
use std::io::{Read, Seek, SeekFrom, Write};

// The most bytes of a line, its end not counted.
const MOST_LINE: usize = 4096;

// The file of a journal, and whether it could not be cut back to what it was: then no later line is kept in it.
#[derive(Drop)]
pub struct JournalFile {
    file: File,
    lost: Cell<bool>,
}

// Where the accepted calls are kept.
#[derive(Clone, Copy)]
pub enum Journal<'a> {
    Nowhere,
    At(&'a JournalFile),
}

// A line as far as it has come: how many bytes of it are in the buffer; or that it is too long.
#[derive(Clone, Copy)]
pub enum Waiting {
    Holds(usize),
    TooLong,
}

impl Waiting {
    // How many bytes of the line are in the buffer; none of one that is too long.
    pub fn count(self) -> usize
        ensures { result ≡ count self }
    {
        match self {
            Waiting::Holds(n) => n,
            Waiting::TooLong => 0,
        }
    }
}

// What was read and is left: the bytes from one place of the buffer to another.
#[derive(Clone, Copy)]
pub struct Reader {
    pub at: usize,
    pub got: usize,
}

// How far the reading of a line has come: it has ended; it goes on in what is read next; there is no more of it; or the rest of it cannot be had.
#[derive(Clone, Copy)]
pub enum Stage {
    Ended,
    Open,
    Stopped,
    Failed,
}

// A line that was read, and what is left behind it.
#[derive(Clone, Copy)]
pub struct Taken {
    pub reader: Reader,
    pub waiting: Waiting,
    pub stage: Stage,
}

// READING A LINE

// A further byte of a line that has not ended.
fn push(w: Waiting, b: u8, line: &mut [u8]) -> Waiting
    requires { (count w ≤ 4096) × (length line.old ≡ 4096) }
    ensures { (waits_in result line.new ≡ pushed (waits_in w line.old) b) × (count result ≤ 4096) }
{
    match w {
        Waiting::Holds(n) if n < MOST_LINE => {
            line[n] = b;
            Waiting::Holds(n + 1)
        }
        _ => Waiting::TooLong,
    }
}

// Takes what is left up to the end of a line; or all of it, and the line goes on.
fn scan(reader: Reader, w: Waiting, chunk: &[u8], line: &mut [u8]) -> Taken
    requires { Lies reader w chunk.now line.old }
    ensures { Scans reader w chunk.now line.old result line.new }
{
    let got = reader.got;
    let mut waiting = w;
    for i in reader.at..got {
        if chunk[i] == b'\n' {
            return Taken {
                reader: Reader { at: i + 1, got },
                waiting,
                stage: Stage::Ended,
            };
        }
        waiting = push(waiting, chunk[i], line);
    }
    Taken {
        reader: Reader { at: got, got },
        waiting,
        stage: Stage::Open,
    }
}

// No more of a line that has not ended.
fn stopped(waiting: Waiting, stage: Stage) -> Taken
    ensures { result ≡ record { reader = record { at = 0; got = 0 }; waiting = waiting; stage = stage } }
{
    Taken {
        reader: Reader { at: 0, got: 0 },
        waiting,
        stage,
    }
}

// Reads once more for a line that has not ended; but not for one that is too long, unless that is asked for.
fn read_on<I: Read>(
    from: &mut I,
    long: bool,
    w: Waiting,
    chunk: &mut [u8],
    line: &mut [u8],
) -> Taken
    requires { (count w ≤ 4096) × (length chunk.old ≡ 4096) × (length line.old ≡ 4096) }
    ensures { ReadsOn (waits_in w line.old) [] result chunk.new line.new }
{
    if !long && matches!(w, Waiting::TooLong) {
        return stopped(w, Stage::Failed);
    }
    match from.read(chunk) {
        Ok(0) => stopped(w, Stage::Stopped),
        Ok(n) => scan(Reader { at: 0, got: n }, w, chunk, line),
        Err(_) => stopped(w, Stage::Failed),
    }
}

// The next line, from what is left of the last read and from further reads. A loop has to end, so these are counted, to a number that none reaches.
fn next_line<I: Read>(
    from: &mut I,
    long: bool,
    reader: Reader,
    chunk: &mut [u8],
    line: &mut [u8],
) -> Taken
    requires { Lies reader (Waiting.Holds 0) chunk.old line.old }
    ensures { ReadsOn fresh (left_in reader chunk.old) result chunk.new line.new }
{
    let mut t = scan(reader, Waiting::Holds(0), chunk, line);
    for _ in 0..u64::MAX {
        let Stage::Open = t.stage else {
            return t;
        };
        t = read_on(from, long, t.waiting, chunk, line);
    }
    t
}

// Whether something of a line has come.
fn has_begun(w: Waiting) -> bool {
    !matches!(w, Waiting::Holds(0))
}

// The next line of standard input; its last one needs no end. A read that fails looks like the end, and is said.
pub fn next_of_input<R, I: Read>(
    console: &Console<'_, R>,
    from: &mut I,
    reader: Reader,
    chunk: &mut [u8; 4096],
    line: &mut [u8; 4096],
) -> Taken
    requires { (reader.at ≤ reader.got) × (reader.got ≤ 4096) }
    ensures { ReadsOn fresh (left_in reader chunk.old) result chunk.new line.new }
{
    let t = next_line(from, true, reader, chunk, line);
    if let Stage::Failed = t.stage {
        console.complain(b"beechdoublet: standard input cannot be read\n");
    }
    match t.stage {
        Stage::Ended => t,
        _ if has_begun(t.waiting) => Taken {
            reader: Reader { at: 0, got: 0 },
            waiting: t.waiting,
            stage: Stage::Ended,
        },
        _ => t,
    }
}

// Says that a line of the journal cannot be played again.
pub fn complain_of_line<R>(console: &Console<'_, R>) {
    console.complain(
        b"beechdoublet: a line of the journal is no call that is accepted; the journal is left as it is\n",
    );
}

// Says why the next line of the journal cannot be had: it is too long, or a read failed.
fn complain_of<R>(console: &Console<'_, R>, w: Waiting) {
    match w {
        Waiting::TooLong => complain_of_line(console),
        Waiting::Holds(_) => { console.complain(b"beechdoublet: the journal cannot be read\n") }
    }
}

// The next line of the journal. One that is too long is not read on, and a read that fails is said.
pub fn next_of_journal<R>(
    console: &Console<'_, R>,
    journal: &JournalFile,
    reader: Reader,
    chunk: &mut [u8; 4096],
    line: &mut [u8; 4096],
) -> Taken
    requires { (reader.at ≤ reader.got) × (reader.got ≤ 4096) }
    ensures { ReadsOn fresh (left_in reader chunk.old) result chunk.new line.new }
{
    let mut file = &journal.file;
    let t = next_line(&mut file, false, reader, chunk, line);
    if let Stage::Failed = t.stage {
        complain_of(console, t.waiting);
    }
    t
}

// KEEPING A LINE

// Appends a line, and waits until it has reached the device.
fn append(file: &File, line: &[u8]) -> io::Result<()> {
    let mut to = file;
    to.write_all(line)?;
    to.write_all(b"\n")?;
    file.sync_all()
}

// Keeps a line in a file. Where that fails the file is cut back to what it was; where that fails too, it is lost, and no later line is kept.
fn keep_at(journal: &JournalFile, line: &[u8]) -> bool {
    if journal.lost.get() {
        return false;
    }
    let mut file = &journal.file;
    let Ok(end) = file.seek(SeekFrom::End(0)) else {
        return false;
    };
    append_or_cut(journal, line, end)
}

// Appends a line to a file, or cuts it back to its end.
fn append_or_cut(journal: &JournalFile, line: &[u8], end: u64) -> bool {
    if append(&journal.file, line).is_ok() {
        return true;
    }
    if journal.file.set_len(end).is_err() {
        journal.lost.set(true);
    }
    false
}

// Keeps an accepted call.
pub fn keep(journal: Journal<'_>, line: &[u8]) -> bool
    ensures { Answers journal.entry result }
{
    match journal {
        Journal::Nowhere => true,
        Journal::At(file) => keep_at(file, line),
    }
}

// THE FILE

// Opens the journal, and makes it where it is missing.
fn open_or_make<R: Files<File = File>>(rt: &R, path: &str) -> io::Result<File> {
    OpenOptions::new()
        .read(true)
        .write(true)
        .open(rt, path)
        .or_else(|_| File::create_new(rt, path))
}

// The journal, to be read and kept. There is none where it cannot be opened, which is said.
fn open_at<R: Files<File = File>>(
    console: &Console<'_, R>,
    rt: &R,
    path: &str,
) -> Option<JournalFile> {
    let Ok(file) = open_or_make(rt, path) else {
        console.complain(b"beechdoublet: the journal cannot be opened\n");
        return None;
    };
    Some(JournalFile {
        file,
        lost: Cell::new(false),
    })
}

// The name of the journal is longer than 4,096 bytes, or is no text.
fn no_name<R>(console: &Console<'_, R>) -> Option<JournalFile> {
    console.complain(b"beechdoublet: the name of the journal cannot be read\n");
    None
}

// Whether the program has an argument, which names a journal.
pub fn is_named<R: Env>(rt: &R) -> bool {
    // A fixed room: nothing is allocated.
    let mut path = [0u8; 4096];
    !matches!(rt.arg(1, &mut path), Err(FillError::NotPresent))
}

// The same of the journal that the program's argument names.
pub fn open_named<R: Env + Files<File = File>>(
    console: &Console<'_, R>,
    rt: &R,
) -> Option<JournalFile> {
    // A fixed room: nothing is allocated.
    let mut path = [0u8; 4096];
    let Ok(n) = rt.arg(1, &mut path) else {
        return no_name(console);
    };
    let Ok(text) = str::from_utf8(&path[..n]) else {
        return no_name(console);
    };
    open_at(console, rt, text)
}

// Goes back n bytes in a file.
fn go_back(file: &File, n: usize) -> io::Result<()> {
    let mut from = file;
    for _ in 0..n {
        from.seek(SeekFrom::Current(-1))?;
    }
    Ok(())
}

// Drops the last n bytes of the journal, which was read to its end.
fn drop_last(file: &File, n: usize) -> io::Result<()> {
    go_back(file, n)?;
    let mut from = file;
    let end = from.seek(SeekFrom::Current(0))?;
    file.set_len(end)?;
    file.sync_all()
}

// Drops the n bytes of a last line without its end, and says so; or says that they cannot be dropped.
pub fn drop_torn<R>(console: &Console<'_, R>, journal: &JournalFile, n: usize) -> bool {
    if n == 0 {
        return true;
    }
    if drop_last(&journal.file, n).is_err() {
        console.complain(
            b"beechdoublet: the last line of the journal has no end, and cannot be dropped\n",
        );
        return false;
    }
    console.note(b"handlers: the last line of the journal has no end, and was dropped\n");
    true
}
