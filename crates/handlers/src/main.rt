// Two handlers at one board: each line of standard input is a call by a firm, and gets one line. `1 FILE (FPL-..)`, `1 UPDATE 0 (CHG-..)`, `1 CLEAR 0`,
// `1 LOOK 0`, `1 LIST`. With an argument, the accepted calls are kept in the file that it names, and are played again at the start; without one the board
// is empty at the start, and gone when the program ends.
#![tactic(auto)]

ghost use Rattle.std.specs.Prelude.{◌≡◌, true, false, ◌≤◌, length};
ghost use Rattle.racks.specs.Places.{Sized};
ghost use Rattle.board.specs.Turns.{Turned};
ghost use Rattle.journal.specs.Lines.{count, waits_in};
ghost use Rattle.handlers.specs.Walk.{accepted_as, call_of, Makes, Takes, Ends, TakesAgain, EndsAgain, PlaysAgain, Serves};

use board::{Turn, Verdict};
use calls::{Ask, Call};
use journal::{Journal, JournalFile, Reader, Stage, Waiting};
use racks::Board;
use say::Console;
use std::io::Read;
use std::process::ExitCode;

fn is_accepted(v: Verdict) -> bool
    ensures { result ≡ accepted_as v }
{
    v.is_ok()
}

// A call on the board.
fn play(board: Board, call: Call, line: &[u8], bytes: &mut [u8; 36000]) -> Turn
    ensures { Turned (call_of call line.now) board.places bytes.old result bytes.new }
{
    match call {
        Call::File { firm, from } => board::file(board, firm, calls::message_of(line, from), bytes),
        Call::Update { firm, slot, from } => {
            board::update(board, firm, slot, calls::message_of(line, from), bytes)
        }
        Call::Clear { firm, slot } => board::clear(board, firm, slot),
    }
}

// Makes a call, on a copy of the strips: the board stays as it was where the call is accepted and cannot be kept.
fn make<R: Print>(
    console: &Console<'_, R>,
    board: Board,
    journal: Journal<'_>,
    call: Call,
    line: &[u8],
    bytes: &mut [u8; 36000],
) -> Board
    requires { Sized board.places bytes.old }
    ensures { Makes journal.entry call line.now board.places bytes.old result.places bytes.new }
{
    let mut trial = *bytes;
    let t = play(board, call, line, &mut trial);
    if is_accepted(t.verdict) && !journal::keep(journal, line) {
        console.print(b"NOT KEPT\n");
        return board;
    }
    *bytes = trial;
    say_board::tell(console, t.board, call, t.verdict, line, bytes);
    t.board
}

fn take<R: Print>(
    console: &Console<'_, R>,
    board: Board,
    journal: Journal<'_>,
    line: &[u8],
    bytes: &mut [u8; 36000],
) -> Board
    requires { Sized board.places bytes.old }
    ensures { Takes journal.entry line.now board.places bytes.old result.places bytes.new }
{
    match calls::ask_in(line) {
        Some(Ask::Calls(call)) => make(console, board, journal, call, line, bytes),
        Some(Ask::Look { firm, slot }) => {
            say_board::show_strip(console, board, firm, slot, bytes);
            board
        }
        Some(Ask::List(firm)) => {
            say_board::show_list(console, board, firm, bytes);
            board
        }
        None => {
            console.print(b"BAD LINE\n");
            board
        }
    }
}

// A line has ended.
fn end_line<R: Print>(
    console: &Console<'_, R>,
    board: Board,
    journal: Journal<'_>,
    w: Waiting,
    line: &[u8],
    bytes: &mut [u8; 36000],
) -> Board
    requires { (count w ≤ length line.now) × Sized board.places bytes.old }
    ensures { Ends journal.entry (waits_in w line.now) board.places bytes.old result.places bytes.new }
{
    match w {
        Waiting::Holds(n) => take(console, board, journal, &line[..n], bytes),
        Waiting::TooLong => {
            console.print(b"TOO LONG\n");
            board
        }
    }
}

// Takes standard input to its end. A loop has to end, so the lines are counted, to a number that no run reaches.
fn serve<R: Print, I: Read>(
    console: &Console<'_, R>,
    from: &mut I,
    board: Board,
    journal: Journal<'_>,
    bytes: &mut [u8; 36000],
) -> Board
    requires { Sized board.places bytes.old }
    ensures { Serves journal.entry board.places bytes.old result.places bytes.new }
{
    // A fixed room: nothing is allocated.
    let mut chunk = [0u8; 4096];
    let mut line = [0u8; 4096];
    let mut now = board;
    let mut reader = Reader { at: 0, got: 0 };
    for _ in 0..u64::MAX {
        let t = journal::next_of_input(console, from, reader, &mut chunk, &mut line);
        let Stage::Ended = t.stage else {
            return now;
        };
        reader = t.reader;
        now = end_line(console, now, journal, t.waiting, &line, bytes);
    }
    now
}

// THE JOURNAL, PLAYED AGAIN

// The board after lines of the journal, how many bytes have come of one more, and whether every line is a call that is accepted.
#[derive(Clone, Copy)]
pub struct Played {
    pub board: Board,
    pub torn: usize,
    pub going: bool,
}

// A line of the journal: the board after it, and whether it is a call that is accepted.
fn replay_line(board: Board, line: &[u8], bytes: &mut [u8; 36000]) -> Played
    requires { Sized board.places bytes.old }
    ensures { TakesAgain line.now board.places bytes.old result bytes.new }
{
    let Some(Ask::Calls(call)) = calls::ask_in(line) else {
        return stuck(board);
    };
    let t = play(board, call, line, bytes);
    Played {
        board: t.board,
        torn: 0,
        going: is_accepted(t.verdict),
    }
}

// The board as it was, and not to go on.
fn stuck(board: Board) -> Played
    ensures { result ≡ record { board = board; torn = 0; going = false } }
{
    Played {
        board,
        torn: 0,
        going: false,
    }
}

// A line of the journal has ended.
fn replay_end(board: Board, w: Waiting, line: &[u8], bytes: &mut [u8; 36000]) -> Played
    requires { (count w ≤ length line.now) × Sized board.places bytes.old }
    ensures { EndsAgain (waits_in w line.now) board.places bytes.old result bytes.new }
{
    match w {
        Waiting::Holds(n) => replay_line(board, &line[..n], bytes),
        Waiting::TooLong => stuck(board),
    }
}

// Plays the journal from the empty board to its end. What cannot be played again is said.
fn replay_all<R>(console: &Console<'_, R>, file: &JournalFile, bytes: &mut [u8; 36000]) -> Played
    requires { length bytes.old ≡ 36000 }
    ensures { PlaysAgain result bytes.new }
{
    // A fixed room: nothing is allocated.
    let mut chunk = [0u8; 4096];
    let mut line = [0u8; 4096];
    let mut now = Board::empty();
    let mut reader = Reader { at: 0, got: 0 };
    for _ in 0..u64::MAX {
        let t = journal::next_of_journal(console, file, reader, &mut chunk, &mut line);
        let Stage::Ended = t.stage else {
            return Played {
                board: now,
                torn: t.waiting.count(),
                going: !matches!(t.stage, Stage::Failed),
            };
        };
        reader = t.reader;
        let r = replay_end(now, t.waiting, &line, bytes);
        now = r.board;
        if !r.going {
            journal::complain_of_line(console);
            return stuck(now);
        }
    }
    stuck(now)
}

// Plays the journal, then takes standard input.
fn start<R: Print, I: Read>(
    console: &Console<'_, R>,
    from: &mut I,
    file: &JournalFile,
    bytes: &mut [u8; 36000],
)
    requires { length bytes.old ≡ 36000 }
{
    let s = replay_all(console, file, bytes);
    if !s.going {
        return;
    }
    if journal::drop_torn(console, file, s.torn) {
        let board = s.board;
        serve(console, from, board, Journal::At(file), bytes);
    }
}

fn main(rt: HostRuntime) -> ExitCode {
    let console = Console::new(&rt, rt.stderr());
    let mut input = rt.stdin();
    // A fixed room: nothing is allocated.
    let mut bytes = [0u8; 36000];
    if !journal::is_named(&rt) {
        serve(
            &console,
            &mut input,
            Board::empty(),
            Journal::Nowhere,
            &mut bytes,
        );
        return console.status();
    }
    if let Some(file) = journal::open_named(&console, &rt) {
        start(&console, &mut input, &file, &mut bytes);
    }
    console.status()
}
