// What the programs print of a cause, why an update is refused: its names, in capitals, each behind a space.
#![tactic(auto)]

use causes::{Cause, Key};
use say::Console;
use strip::Differences;

fn name<R: Print>(console: &Console<'_, R>, shown: bool, word: &[u8]) {
    if shown {
        console.print(b" ");
        console.print(word);
    }
}

fn differences<R: Print>(console: &Console<'_, R>, d: Differences) {
    name(console, d.identification, b"IDENTIFICATION");
    name(console, d.aerodrome, b"AERODROME");
    name(console, d.time, b"TIME");
    name(console, d.destination, b"DESTINATION");
    name(console, d.date, b"DATE");
}

// The key, as field 18 has it, behind a space.
fn key_name(k: Key) -> &'static [u8] {
    match k {
        Key::Typ => b" TYP",
        Key::Dep => b" DEP",
        Key::Dest => b" DEST",
        Key::Altn => b" ALTN",
    }
}

// The names of a cause; nothing where nothing more is shown.
pub fn names<R: Print>(console: &Console<'_, R>, c: Cause) {
    match c {
        Cause::NothingMore => {}
        Cause::Another(d) => differences(console, d),
        Cause::Missing(k) => console.print(key_name(k)),
        Cause::Forbidden(s) => {
            console.print(b" ");
            console.state(s);
        }
    }
}

// A refusal of an update, as a line: `NO`, number, field, place and the names of its cause.
pub fn refusal<R: Print>(console: &Console<'_, R>, number: u8, field: u8, place: usize, c: Cause) {
    console.refused(number, field, place);
    names(console, c);
    console.print(b"\n");
}

// A cause by itself, as a line: `CAUSE`, its number and its names, or `NONE`.
pub fn line<R: Print>(console: &Console<'_, R>, c: Cause) {
    match c {
        Cause::NothingMore => console.print(b"NONE"),
        Cause::Another(_) => console.print(b"CAUSE 12"),
        Cause::Missing(_) => console.print(b"CAUSE 10"),
        Cause::Forbidden(_) => console.print(b"CAUSE 13"),
    }
    names(console, c);
    console.print(b"\n");
}
