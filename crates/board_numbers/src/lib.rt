// A board of two handlers as plain numbers, ten for each place, and the calls on a board that is so handed in. The strips lie in 36,000 lent bytes.
#![tactic(auto)]

ghost use Rattle.std.specs.Prelude.{◌≡◌, ◌≤◌, length};
ghost use Rattle.text.specs.Lent.{front};
ghost use Rattle.handed.specs.States.{kept};
ghost use Rattle.rooms.specs.Rooms.{firm_of};
ghost use Rattle.board.specs.Turns.{filing, updating};
ghost use Rattle.board_numbers.specs.Numbers.{held_numbers, board_numbers, held_of, board_of, handed_as, nothing};
ghost use Rattle.board_numbers.specs.Calls.{verdict_number, verdict_numbers, not_board, Called, Clears};
ghost use Rattle.board_numbers.specs.Calls.{look_number, look_numbers, not_board_look, start_of, Looks};

use board::{Done, Looked, Verdict};
use outer::Refusal;
use racks::{Board, Flight};
use rooms::Firm;
use state::Strip;

const PLACES: usize = 20;

// The numbers of a place.
fn held_numbers(place: Option<Flight>) -> [u64; 10]
    ensures { result ≡ held_numbers place }
{
    match place {
        None => [0; 10],
        Some(flight) => {
            let e = handed::state_numbers(flight.held.state);
            [
                1,
                e[0],
                e[1],
                e[2],
                e[3],
                e[4],
                e[5],
                e[6],
                e[7],
                flight.length as u64,
            ]
        }
    }
}

// Writes a place's numbers at the front of `out`.
fn put_row(row: &[u64], out: &mut [u64])
    requires { length row.now ≤ length out.old }
    ensures { out.new ≡ front row.now out.old }
{
    out[..row.len()].copy_from_slice(row);
}

// Writes a board's numbers, place by place.
fn put_places(board: Board, out: &mut [u64])
    requires { length out.old ≡ 200 }
    ensures { out.new ≡ board_numbers board.places }
{
    for i in 0..PLACES {
        put_row(&held_numbers(board.places[i]), &mut out[10 * i..]);
    }
}

// The numbers of a board.
pub fn put_board(board: Board, out: &mut [u64; 200])
    ensures { out.new ≡ board_numbers board.places }
{
    put_places(board, out)
}

// A length of at most 1,800; any other becomes 0.
fn length_of(n: u64) -> usize
    ensures { result ≡ kept 1801 n }
{
    if n < 1801 { n as usize } else { 0 }
}

// What the first ten numbers mean, if they are those of a place.
fn held_of(row: &[u64]) -> Option<Flight>
    requires { 10 ≤ length row.now }
    ensures { result ≡ held_of row.now }
{
    if row[0] == 0 {
        return None;
    }
    let state = handed::state_of(&[
        row[1], row[2], row[3], row[4], row[5], row[6], row[7], row[8],
    ]);
    Some(Flight {
        held: Strip { state },
        length: length_of(row[9]),
    })
}

// The board that numbers mean, if they are those of a board.
fn places_of(numbers: &[u64]) -> Board
    requires { length numbers.now ≡ 200 }
    ensures { result.places ≡ board_of numbers.now }
{
    let mut places = [None; PLACES];
    for i in 0..PLACES {
        places[i] = held_of(&numbers[10 * i..]);
    }
    Board { places }
}

// The board that a caller hands in; where the numbers are not those of a board, `Err` with what they mean all the same.
pub fn hand_in(numbers: &[u64; 200]) -> Result<Board, Board>
    ensures { result ≡ handed_as numbers.now }
{
    let board = places_of(numbers);
    let mut again = [0; 200];
    put_board(board, &mut again);
    if again != *numbers {
        return Err(board);
    }
    Ok(board)
}

// The verdict where numbers are no board's: 18 before 15.
fn not_board(firm: u8) -> Verdict
    ensures { result ≡ not_board (firm_of firm) }
{
    match Firm::from_number(firm) {
        None => Err(Refusal::of(18)),
        Some(_) => Err(Refusal::of(15)),
    }
}

// Lays out a verdict, and gives its number.
fn tell(v: Verdict, answer: &mut [u64; 4]) -> u8
    ensures { (result ≡ verdict_number v) × (answer.new ≡ verdict_numbers v) }
{
    match v {
        Ok(Done::Filed(k)) => {
            *answer = [0, 0, 0, k as u64];
            0
        }
        Ok(Done::Updated(_, _) | Done::Cleared) => {
            *answer = [0; 4];
            0
        }
        Err(refusal) => {
            *answer = [
                refusal.number as u64,
                refusal.field as u64,
                refusal.place as u64,
                0,
            ];
            refusal.number
        }
    }
}

// A firm files a message, as `board::file` does.
pub fn file(
    numbers: &mut [u64; 200],
    strips: &mut [u8; 36000],
    firm: u64,
    msg: &[u8],
    answer: &mut [u64; 4],
) -> u8
    ensures { Called (filing firm msg.now) numbers.old strips.old result answer.new numbers.new
        strips.new }
{
    let by = handed::byte_of(firm);
    let Ok(board) = hand_in(numbers) else {
        return tell(not_board(by), answer);
    };
    let t = board::file(board, by, msg, strips);
    put_board(t.board, numbers);
    tell(t.verdict, answer)
}

// A firm offers a message to the strip in one of its slots, as `board::update` does.
pub fn update(
    numbers: &mut [u64; 200],
    strips: &mut [u8; 36000],
    firm: u64,
    slot: u64,
    msg: &[u8],
    answer: &mut [u64; 4],
) -> u8
    ensures { Called (updating firm slot msg.now) numbers.old strips.old result answer.new
        numbers.new strips.new }
{
    let by = handed::byte_of(firm);
    let Ok(board) = hand_in(numbers) else {
        return tell(not_board(by), answer);
    };
    let t = board::update(board, by, slot as usize, msg, strips);
    put_board(t.board, numbers);
    tell(t.verdict, answer)
}

// A firm clears one of its slots, as `board::clear` does.
pub fn clear(numbers: &mut [u64; 200], firm: u64, slot: u64, answer: &mut [u64; 4]) -> u8
    ensures { Clears firm slot numbers.old result answer.new numbers.new }
{
    let by = handed::byte_of(firm);
    let Ok(board) = hand_in(numbers) else {
        return tell(not_board(by), answer);
    };
    let t = board::clear(board, by, slot as usize);
    put_board(t.board, numbers);
    tell(t.verdict, answer)
}

// What a look shows where numbers are no board's: 18 before 15.
fn not_board_look(firm: u8) -> Looked
    ensures { result ≡ not_board_look (firm_of firm) }
{
    match Firm::from_number(firm) {
        None => Err(Refusal::of(18)),
        Some(_) => Err(Refusal::of(15)),
    }
}

// Where a slot's place begins in the strips.
fn start_of(firm: u8, slot: usize) -> usize
    ensures { result ≡ start_of (firm_of firm) slot }
{
    match Firm::from_number(firm) {
        None => 0,
        Some(f) => {
            if 10 <= slot {
                return 0;
            }
            match f {
                Firm::First => 1800 * slot,
                Firm::Second => 1800 * (10 + slot),
            }
        }
    }
}

// Lays out what a look shows, and gives its number.
fn tell_look(l: Looked, from: usize, long: usize, answer: &mut [u64; 13]) -> u8
    ensures { (result ≡ look_number l) × (answer.new ≡ look_numbers l from long) }
{
    match l {
        Ok(strip) => {
            let e = handed::state_numbers(strip.state);
            *answer = [
                0,
                0,
                0,
                e[0],
                e[1],
                e[2],
                e[3],
                e[4],
                e[5],
                e[6],
                e[7],
                from as u64,
                long as u64,
            ];
            0
        }
        Err(refusal) => {
            *answer = [
                refusal.number as u64,
                refusal.field as u64,
                refusal.place as u64,
                0,
                0,
                0,
                0,
                0,
                0,
                0,
                0,
                0,
                0,
            ];
            refusal.number
        }
    }
}

// A firm looks at one of its slots, as `board::look` and `board::strip_of` do.
pub fn look(
    numbers: &[u64; 200],
    strips: &[u8; 36000],
    firm: u64,
    slot: u64,
    answer: &mut [u64; 13],
) -> u8
    ensures { Looks firm slot numbers.now strips.now result answer.new }
{
    let by = handed::byte_of(firm);
    let Ok(board) = hand_in(numbers) else {
        return tell_look(not_board_look(by), 0, 0, answer);
    };
    let k = slot as usize;
    let part = board::strip_of(board, by, k, strips);
    tell_look(
        board::look(board, by, k),
        start_of(by, k),
        part.len(),
        answer,
    )
}

// A board on which nothing stands.
pub fn empty(numbers: &mut [u64; 200])
    ensures { numbers.new ≡ nothing }
{
    *numbers = [0; 200];
}
