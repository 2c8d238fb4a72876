// What the programs read and print. No contract can say what is read or printed; what a line says of a time is spelled by a function with one.
// What could not be read or written a program says on standard error, once, and it ends with status 1 then.
#![tactic(auto)]

ghost use Rattle.std.specs.Prelude.{◌≡◌, ◌+◌, ◌<◌, ◌≤◌};
ghost use Rattle.io.specs.Counts.{IsPrefixLen};
ghost use Rattle.shape.specs.Time.{spell_clock};

use aerodromes::Aerodrome;
use kinds::MessageType;
use shape::Clock;
use state::{State, Strip};
use std::cell::Cell;
use std::io::{Read, Stderr, Write};
use std::process::ExitCode;

// Where a program prints and where it says what went wrong, and whether it has said so.
#[derive(Drop)]
pub struct Console<'a, R> {
    rt: &'a R,
    errors: Stderr,
    complained: Cell<bool>,
}

impl<'a, R> Console<'a, R> {
    // One on which nothing has gone wrong yet.
    pub fn new(rt: &'a R, errors: Stderr) -> Console<'a, R> {
        Console {
            rt,
            errors,
            complained: Cell::new(false),
        }
    }

    // Says what went wrong first, and no more.
    pub fn complain(&self, what: &[u8]) {
        if !self.complained.get() {
            self.note(what);
            self.complained.set(true);
        }
    }

    // Writes to standard error what is no fault. Where that fails there is nowhere to say so.
    pub fn note(&self, what: &[u8]) {
        let mut to = &self.errors;
        let _ = to.write_all(what);
    }

    // The status that a program ends with: 1 where it has complained, and 0 otherwise.
    pub fn status(&self) -> ExitCode {
        if self.complained.get() {
            return ExitCode::FAILURE;
        }
        ExitCode::SUCCESS
    }

    // Complains unless standard input has ended.
    fn expect_end<I: Read>(&self, from: &mut I) {
        let mut further = [0u8; 1];
        match from.read(&mut further) {
            Ok(0) => {}
            _ => self.complain(b"beechdoublet: standard input cannot be read\n"),
        }
    }

    // Reads standard input up to its end, or as much as `buf` holds, and gives the count. A read that fails looks like the end; one further tells them apart.
    pub fn input<I: Read>(&self, from: &mut I, buf: &mut [u8]) -> usize
        ensures { IsPrefixLen result buf.new }
    {
        let n = read_full(from, buf);
        if n < buf.len() {
            self.expect_end(from);
        }
        n
    }
}

// Reads up to the end, or as much as `buf` holds, and gives the count. A read that fails looks like the end.
fn read_full<I: Read>(from: &mut I, buf: &mut [u8]) -> usize
    ensures { IsPrefixLen result buf.new }
{
    let mut n = 0;
    // A loop: std's `read_exact` does not say how many bytes came before the end, and `read_to_end` wants the heap.
    while n < buf.len() {
        match from.read(&mut buf[n..]) {
            Ok(0) => return n,
            Ok(more) => n += more,
            Err(_) => return n,
        }
    }
    n
}

// The most bytes of messages that a program reads.
const MOST_INPUT: usize = 65536;

// One digit; from ten on the byte that lies so far behind `0`.
fn digit(n: u16) -> u8
    requires { n < 208 }
    ensures { result ≡ 48 + n }
{
    b'0' + n as u8
}

// A time as hours and minutes, two digits each. A minute of the day gives digits; from 100 hours on the first byte is one behind `9`.
pub fn four_digits(t: Clock) -> [u8; 4]
    ensures { result ≡ spell_clock t }
{
    let hours = t.0 / 60;
    let minutes = t.0 % 60;
    [
        digit(hours / 10),
        digit(hours % 10),
        digit(minutes / 10),
        digit(minutes % 10),
    ]
}

impl<'a, R: Print> Console<'a, R> {
    // Reads the messages of standard input, and gives the count. Of more than `MOST_INPUT` bytes it says `TOO LONG`, and gives none; `buf` has one byte more
    // than that, to show it.
    pub fn messages<I: Read>(&self, from: &mut I, buf: &mut [u8; 65537]) -> usize
        ensures { (result ≤ 65536) × IsPrefixLen result buf.new }
    {
        let n = self.input(from, buf);
        if MOST_INPUT < n {
            self.print(b"TOO LONG\n");
            return 0;
        }
        n
    }

    // Writes to standard output. No type has `Display`: what is printed are bytes, of which no contract says that they are UTF-8.
    pub fn print(&self, bytes: &[u8]) {
        if self.rt.write_all(bytes).is_err() {
            self.complain(b"beechdoublet: standard output cannot be written\n");
        }
    }

    // Writes a number, as decimal digits.
    pub fn decimal(&self, n: u64) {
        let mut digits = [0u8; 20];
        let k = io::decimal(n, &mut digits);
        self.print(&digits[..k]);
    }

    fn time(&self, t: Clock) {
        self.print(&four_digits(t));
    }

    fn departure(&self, d: Option<Clock>) {
        match d {
            Some(t) => self.time(t),
            None => self.print(b"----"),
        }
    }

    fn arrival(&self, d: Option<Clock>, a: Aerodrome, t: Clock) {
        self.print(b"ARRIVED ");
        self.departure(d);
        self.print(b" ");
        self.print(&[a.0, a.1, a.2, a.3]);
        self.print(b" ");
        self.time(t);
    }

    // A state: its name, and its times and aerodrome. Any state is printed; only one that `Strip::is_sound` passes has times and an aerodrome as
    // document 01 writes them.
    pub fn state(&self, s: State) {
        match s {
            State::Filed => self.print(b"FILED"),
            State::Departed(t) => {
                self.print(b"DEPARTED ");
                self.time(t);
            }
            State::Arrived(d, a, t) => self.arrival(d, a, t),
            State::Cancelled => self.print(b"CANCELLED"),
        }
    }

    fn type_of(&self, t: MessageType) {
        let [a, b, c] = t.letters();
        self.print(&[b'O', b'K', b' ', a, b, c]);
    }

    // The end of a line: a space and the spelling.
    pub fn spelled(&self, spelling: &[u8]) {
        self.print(b" ");
        self.print(spelling);
        self.print(b"\n");
    }

    // An accepted message: `OK`, its type, its spelling.
    pub fn accepted(&self, t: MessageType, spelling: &[u8]) {
        self.type_of(t);
        self.spelled(spelling);
    }

    // A strip: `OK`, its state, its spelling.
    pub fn strip(&self, held: Strip, spelling: &[u8]) {
        self.print(b"OK ");
        self.state(held.state);
        self.spelled(spelling);
    }

    // A refusal up to the end of its line: `NO`, number, field, place.
    pub fn refused(&self, number: u8, field: u8, place: usize) {
        self.print(b"NO ");
        self.decimal(number as u64);
        self.print(b" ");
        self.decimal(field as u64);
        self.print(b" ");
        self.decimal(place as u64);
    }

    // A refusal, as a line.
    pub fn refusal(&self, number: u8, field: u8, place: usize) {
        self.refused(number, field, place);
        self.print(b"\n");
    }
}
