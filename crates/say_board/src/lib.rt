// What the program `handlers` prints of the board: the answer to a call, a strip, the list of a firm's strips.
#![tactic(auto)]

use board::{Done, Verdict};
use calls::Call;
use racks::Board;
use rooms::Firm;
use say::Console;
use state::Strip;

// A strip that was just filed: its slot, its state and its spelling.
fn tell_filed<R: Print>(
    console: &Console<'_, R>,
    board: Board,
    call: Call,
    slot: usize,
    bytes: &[u8; 36000],
) {
    if let Call::File { firm, .. } = call {
        console.print(b"OK ");
        console.decimal(slot as u64);
        console.print(b" FILED");
        console.spelled(board::strip_of(board, firm, slot, bytes));
    }
}

// A strip that was updated: its state and its spelling.
fn tell_updated<R: Print>(
    console: &Console<'_, R>,
    board: Board,
    call: Call,
    held: Strip,
    bytes: &[u8; 36000],
) {
    if let Call::Update { firm, slot, .. } = call {
        console.strip(held, board::strip_of(board, firm, slot, bytes));
    }
}

// The state of the strip in a slot, behind a space.
fn show_found<R: Print>(console: &Console<'_, R>, board: Board, firm: u8, slot: usize) {
    if let Ok(held) = board::look(board, firm, slot) {
        console.print(b" ");
        console.state(held.state);
    }
}

// Why an update of the strip in a slot was refused, as the desk shows it.
fn show_why<R: Print>(
    console: &Console<'_, R>,
    board: Board,
    firm: u8,
    slot: usize,
    msg: &[u8],
    bytes: &[u8; 36000],
) {
    if let Ok(held) = board::look(board, firm, slot) {
        let strip = board::strip_of(board, firm, slot, bytes);
        say_cause::names(console, causes::cause_of(strip, held, msg));
    }
}

// The cause of a refusal, behind its number, field and place. It is asked of the board as it stands: a refused call leaves it as it was.
fn show_cause<R: Print>(
    console: &Console<'_, R>,
    board: Board,
    call: Call,
    line: &[u8],
    bytes: &[u8; 36000],
) {
    match call {
        Call::File { .. } => {}
        Call::Update { firm, slot, from } => {
            show_why(
                console,
                board,
                firm,
                slot,
                calls::message_of(line, from),
                bytes,
            )
        }
        Call::Clear { firm, slot } => show_found(console, board, firm, slot),
    }
}

// The answer to a call; the board is as it then stands.
pub fn tell<R: Print>(
    console: &Console<'_, R>,
    board: Board,
    call: Call,
    v: Verdict,
    line: &[u8],
    bytes: &[u8; 36000],
) {
    match v {
        Ok(Done::Filed(slot)) => tell_filed(console, board, call, slot, bytes),
        Ok(Done::Updated(held, _)) => tell_updated(console, board, call, held, bytes),
        Ok(Done::Cleared) => console.print(b"OK CLEARED\n"),
        Err(refusal) => {
            console.refused(refusal.number, refusal.field, refusal.place);
            show_cause(console, board, call, line, bytes);
            console.print(b"\n");
        }
    }
}

// The strip in a slot, or why there is none.
pub fn show_strip<R: Print>(
    console: &Console<'_, R>,
    board: Board,
    firm: u8,
    slot: usize,
    bytes: &[u8; 36000],
) {
    match board::look(board, firm, slot) {
        Ok(held) => console.strip(held, board::strip_of(board, firm, slot, bytes)),
        Err(refusal) => console.refusal(refusal.number, refusal.field, refusal.place),
    }
}

// Of a strip in the list: its slot, its identification and its state.
fn show_entry<R: Print>(
    console: &Console<'_, R>,
    board: Board,
    firm: u8,
    slot: usize,
    bytes: &[u8; 36000],
) {
    if let Ok(held) = board::look(board, firm, slot) {
        console.print(b" ");
        console.decimal(slot as u64);
        console.print(b" ");
        let seven = amending::field(board::strip_of(board, firm, slot, bytes), kinds::PLAN_7);
        console.print(head::identification(seven));
        console.print(b" ");
        console.state(held.state);
    }
}

fn show_entries<R: Print>(console: &Console<'_, R>, board: Board, firm: u8, bytes: &[u8; 36000]) {
    for slot in 0..10 {
        show_entry(console, board, firm, slot, bytes);
    }
}

// The strips of a firm, by rising slot.
pub fn show_list<R: Print>(console: &Console<'_, R>, board: Board, firm: u8, bytes: &[u8; 36000]) {
    match Firm::from_number(firm) {
        None => console.refusal(18, 0, 0),
        Some(_) => {
            console.print(b"OK");
            show_entries(console, board, firm, bytes);
            console.print(b"\n");
        }
    }
}
