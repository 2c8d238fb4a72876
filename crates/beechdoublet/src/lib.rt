// The calls for programs in C and Rust. Answers and states go in and out as plain numbers, which include/beechdoublet.h names.
#![tactic(auto)]

ghost use Rattle.std.specs.Prelude.{◌≡◌, [], ◌∷◌, Ok, length};
ghost use Rattle.message.specs.Reading.{answer_of, out_after};
ghost use Rattle.asked.specs.Parts.{Shows};
ghost use Rattle.parts.specs.Parts.{field_of, content_asked as content_numbered, planned_of};
ghost use Rattle.parts.specs.Shown.{Shows as ShowsField, ShowsPlan};
ghost use Rattle.beechdoublet.specs.Numbers.{type_number, read_number, read_numbers, update_number, update_numbers};
ghost use Rattle.beechdoublet.specs.Numbers.{asked_number, asked_numbers, field_told, asked_whole};
ghost use Rattle.beechdoublet.specs.Numbers.{part_number, part_numbers, part_whole, date_numbers, plan_number, plan_numbers, parts_numbers};
ghost use Rattle.handed.specs.States.{state_numbers, byte_of, handed_as, sound_as};
ghost use Rattle.board.specs.Turns.{filing, updating};
ghost use Rattle.board_numbers.specs.Numbers.{nothing};
ghost use Rattle.board_numbers.specs.Calls.{Called, Clears, Looks};
ghost use Rattle.beechdoublet.specs.Handed.{update_as, out_as, state_as, asked_as, content_asked};
ghost use Rattle.beechdoublet.specs.Causes.{flag, set_numbers, key_number, cause_number, cause_numbers, cause_as};

use asked::{Asked, Place};
use causes::{Cause, Key};
use dates::Date;
use kinds::MessageType;
use message::Answer;
use outer::Refusal;
use parts::{Part, PlanParts, Planned};
use state::{State, Strip};
use strip::{Differences, Updated};

fn type_number(t: MessageType) -> u64
    ensures { result ≡ type_number t }
{
    match t {
        MessageType::Fpl => 1,
        MessageType::Chg => 2,
        MessageType::Cnl => 3,
        MessageType::Dla => 4,
        MessageType::Dep => 5,
        MessageType::Arr => 6,
        MessageType::Rqp => 7,
        MessageType::Rqs => 8,
        MessageType::Spl => 9,
    }
}

// Lays out an answer to reading, and gives its number.
fn tell_read(a: Answer, answer: &mut [u64; 5]) -> u8
    ensures { (result ≡ read_number a) × (answer.new ≡ read_numbers a) }
{
    match a {
        Ok((t, n)) => {
            *answer = [0, 0, 0, type_number(t), n as u64];
            0
        }
        Err(refusal) => {
            *answer = [
                refusal.number as u64,
                refusal.field as u64,
                refusal.place as u64,
                0,
                0,
            ];
            refusal.number
        }
    }
}

// Offers a message to a strip that is handed in; 15 where the numbers are no state.
fn updated(strip: &[u8], h: Option<Strip>, msg: &[u8], out: &mut [u8]) -> Updated
    ensures { (result ≡ update_as h strip.now msg.now (length out.old))
        × (out.new ≡ out_as h strip.now msg.now out.old) }
{
    match h {
        Some(held) => strip::update(strip, held, msg, out),
        None => Err(Refusal::of(15)),
    }
}

// Lays out an answer to an update and the state afterwards, and gives its number.
fn tell_update(u: Updated, state: &mut [u64; 8], answer: &mut [u64; 4]) -> u8
    ensures { (result ≡ update_number u) × (answer.new ≡ update_numbers u) × (state.new ≡ state_as u state.old) }
{
    match u {
        Ok((next, n)) => {
            *state = handed::state_numbers(next.state);
            *answer = [0, 0, 0, n as u64];
            0
        }
        Err(refusal) => {
            *answer = [
                refusal.number as u64,
                refusal.field as u64,
                refusal.place as u64,
                0,
            ];
            refusal.number
        }
    }
}

// Asks a strip that is handed in for a field in force; 15 where the numbers are no state.
fn asked_of(strip: &[u8], h: Option<Strip>, chg: &[u8], number: u64) -> Asked
    ensures { (result ≡ asked_as h strip.now chg.now number)
        × Shows result strip.now chg.now (content_asked strip.now chg.now number) }
{
    match h {
        Some(held) => asked::ask(strip, held, chg, handed::byte_of(number)),
        None => Err(Refusal::of(15)),
    }
}

// The field of a refusal. A number over 255 is asked for as 0, and an 8 for it has the number as it was asked.
fn field_told(asked: u64, number: u8, field: u8) -> u64
    ensures { result ≡ field_told asked number field }
{
    if asked <= 255 {
        return field as u64;
    }
    if number != 8 {
        return field as u64;
    }
    if field != 0 {
        return field as u64;
    }
    asked
}

// The numbers of where a field in force stands.
fn place_numbers(p: Place) -> [u64; 6]
    ensures { result ≡ asked_numbers (Ok p) }
{
    match p {
        Place::InStrip { from, to } => [0, 0, 0, 1, from as u64, to as u64],
        Place::InChange { from, to } => [0, 0, 0, 2, from as u64, to as u64],
    }
}

// Lays out where a field in force stands, and gives the answer's number.
fn tell_asked(a: Asked, asked: u64, answer: &mut [u64; 6]) -> u8
    ensures { (result ≡ asked_number a) × (answer.new ≡ asked_numbers (asked_whole asked a)) }
{
    match a {
        Ok(place) => {
            *answer = place_numbers(place);
            0
        }
        Err(refusal) => {
            let told = field_told(asked, refusal.number, refusal.field);
            *answer = [refusal.number as u64, told, refusal.place as u64, 0, 0, 0];
            refusal.number
        }
    }
}

// Lays out where a message's field stands, and gives the answer's number.
fn tell_part(p: Part, asked: u64, answer: &mut [u64; 6]) -> u8
    ensures { (result ≡ part_number p) × (answer.new ≡ part_numbers (part_whole asked p)) }
{
    match p {
        Ok(s) => {
            *answer = [0, 0, 0, 1, s.from as u64, s.to as u64];
            0
        }
        Err(refusal) => {
            let told = field_told(asked, refusal.number, refusal.field);
            *answer = [refusal.number as u64, told, refusal.place as u64, 0, 0, 0];
            refusal.number
        }
    }
}

// The numbers of a date, if there is one.
fn date_numbers(d: Option<Date>) -> [u64; 4]
    ensures { result ≡ date_numbers d }
{
    match d {
        Some(d) => [1, d.year as u64, d.month as u64, d.day as u64],
        None => [0, 0, 0, 0],
    }
}

// The numbers of a plan's parts.
fn parts_numbers(p: PlanParts) -> [u64; 19]
    ensures { result ≡ parts_numbers p }
{
    let day = p.date;
    let date = date_numbers(day);
    [
        0,
        0,
        0,
        p.identification.from as u64,
        p.identification.to as u64,
        p.aircraft.count as u64,
        p.aircraft.kind.from as u64,
        p.aircraft.kind.to as u64,
        p.departure.aerodrome as u64,
        p.departure.time.0 as u64,
        p.destination.aerodrome as u64,
        p.destination.elapsed.0 as u64,
        p.destination.alternates as u64,
        p.destination.first as u64,
        p.destination.second as u64,
        date[0],
        date[1],
        date[2],
        date[3],
    ]
}

// Lays out the parts of a plan, and gives the answer's number.
fn tell_plan(p: Planned, answer: &mut [u64; 19]) -> u8
    ensures { (result ≡ plan_number p) × (answer.new ≡ plan_numbers p) }
{
    match p {
        Ok(parts) => {
            *answer = parts_numbers(parts);
            0
        }
        Err(refusal) => {
            let mut row = [0; 19];
            row[0] = refusal.number as u64;
            row[1] = refusal.field as u64;
            row[2] = refusal.place as u64;
            *answer = row;
            refusal.number
        }
    }
}

// Reads a message, as `message::read` does. The answer is number, field, place, type and length; the number is also given back.
#[unsafe(no_mangle)]
pub extern "C" fn beechdoublet_read(msg: &[u8], out: &mut [u8], answer: &mut [u64; 5]) -> u8
    ensures { (result ≡ read_number (answer_of msg.now (length out.old)))
        × (answer.new ≡ read_numbers (answer_of msg.now (length out.old)))
        × (out.new ≡ out_after msg.now out.old) }
{
    tell_read(message::read(msg, out), answer)
}

// Offers a message to a strip, as `strip::update` does. The answer is number, field, place and length; the number is also given back.
#[unsafe(no_mangle)]
pub extern "C" fn beechdoublet_update(
    strip: &[u8],
    state: &mut [u64; 8],
    msg: &[u8],
    out: &mut [u8],
    answer: &mut [u64; 4],
) -> u8
    ensures { (result ≡ update_number (update_as (handed_as state.old) strip.now msg.now (length out.old)))
        × (answer.new ≡ update_numbers (update_as (handed_as state.old) strip.now msg.now (length out.old)))
        × (state.new
        ≡ state_as (update_as (handed_as state.old) strip.now msg.now (length out.old)) state.old)
        × (out.new ≡ out_as (handed_as state.old) strip.now msg.now out.old) }
{
    let held = handed::hand_in(state);
    tell_update(updated(strip, held, msg, out), state, answer)
}

// Whether a strip may be handed in with these numbers: they are those of a state, and it is sound.
#[unsafe(no_mangle)]
pub extern "C" fn beechdoublet_sound(state: &[u64; 8]) -> bool
    ensures { result ≡ sound_as (handed_as state.now) }
{
    match handed::hand_in(state) {
        Some(held) => held.is_sound(),
        None => false,
    }
}

// Asks where a field in force stands, as `asked::ask` does. The answer is number, field, place, source, from and to; the number is also given back.
#[unsafe(no_mangle)]
pub extern "C" fn beechdoublet_in_force(
    strip: &[u8],
    state: &[u64; 8],
    chg: &[u8],
    number: u64,
    answer: &mut [u64; 6],
) -> u8
    ensures { (result ≡ asked_number (asked_as (handed_as state.now) strip.now chg.now number))
        × (answer.new ≡ asked_numbers (asked_whole number (asked_as (handed_as state.now) strip.now chg.now number)))
        × Shows (asked_as (handed_as state.now) strip.now chg.now number) strip.now chg.now
        (content_asked strip.now chg.now number) }
{
    tell_asked(
        asked_of(strip, handed::hand_in(state), chg, number),
        number,
        answer,
    )
}

// Says where a message's field stands, as `parts::field_of` does. The answer is laid out as that of a field in force, with the source 1.
#[unsafe(no_mangle)]
pub extern "C" fn beechdoublet_field(msg: &[u8], number: u64, answer: &mut [u64; 6]) -> u8
    ensures { (result ≡ part_number (field_of msg.now (byte_of number)))
        × (answer.new ≡ part_numbers (part_whole number (field_of msg.now (byte_of number))))
        × ShowsField (field_of msg.now (byte_of number)) msg.now (content_numbered msg.now (byte_of number)) }
{
    tell_part(
        parts::field_of(msg, handed::byte_of(number)),
        number,
        answer,
    )
}

// Tells the parts of a plan, as `parts::plan_parts` does. The answer is number, field, place and the parts; the number is also given back.
#[unsafe(no_mangle)]
pub extern "C" fn beechdoublet_plan(strip: &[u8], answer: &mut [u64; 19]) -> u8
    ensures { (result ≡ plan_number (planned_of strip.now)) × (answer.new ≡ plan_numbers (planned_of strip.now))
        × ShowsPlan (planned_of strip.now) strip.now }
{
    tell_plan(parts::plan_parts(strip), answer)
}

// Why an update of a strip that is handed in is refused; nothing more where the numbers are no state.
fn cause_as(strip: &[u8], h: Option<Strip>, msg: &[u8]) -> Cause
    ensures { result ≡ cause_as h strip.now msg.now }
{
    match h {
        Some(held) => causes::cause_of(strip, held, msg),
        None => Cause::NothingMore,
    }
}

fn flag_of(b: bool) -> u64
    ensures { result ≡ flag b }
{
    if b { 1 } else { 0 }
}

// The numbers of what differs.
fn set_numbers(d: Differences) -> [u64; 9]
    ensures { result ≡ set_numbers d }
{
    [
        12,
        flag_of(d.identification),
        flag_of(d.aerodrome),
        flag_of(d.time),
        flag_of(d.destination),
        flag_of(d.date),
        0,
        0,
        0,
    ]
}

fn key_number(k: Key) -> u64
    ensures { result ≡ key_number k }
{
    match k {
        Key::Typ => 1,
        Key::Dep => 2,
        Key::Dest => 3,
        Key::Altn => 4,
    }
}

// The numbers of the state found.
fn found_numbers(s: State) -> [u64; 9]
    ensures { result ≡ 13 ∷ state_numbers s }
{
    let n = handed::state_numbers(s);
    [13, n[0], n[1], n[2], n[3], n[4], n[5], n[6], n[7]]
}

// Lays out a cause, and gives its number.
fn tell_cause(c: Cause, cause: &mut [u64; 9]) -> u8
    ensures { (result ≡ cause_number c) × (cause.new ≡ cause_numbers c) }
{
    match c {
        Cause::NothingMore => {
            *cause = [0; 9];
            0
        }
        Cause::Another(d) => {
            *cause = set_numbers(d);
            12
        }
        Cause::Missing(k) => {
            *cause = [10, key_number(k), 0, 0, 0, 0, 0, 0, 0];
            10
        }
        Cause::Forbidden(s) => {
            *cause = found_numbers(s);
            13
        }
    }
}

// Says why an update is refused, as `causes::cause_of` does. The cause is its number and what that shows; the number is also given back.
#[unsafe(no_mangle)]
pub extern "C" fn beechdoublet_cause(
    strip: &[u8],
    state: &[u64; 8],
    msg: &[u8],
    cause: &mut [u64; 9],
) -> u8
    ensures { (result ≡ cause_number (cause_as (handed_as state.now) strip.now msg.now))
        × (cause.new ≡ cause_numbers (cause_as (handed_as state.now) strip.now msg.now)) }
{
    tell_cause(cause_as(strip, handed::hand_in(state), msg), cause)
}

// Makes a board on which nothing stands, whatever the numbers were. Gives 0 back.
#[unsafe(no_mangle)]
pub extern "C" fn beechdoublet_board_empty(places: &mut [u64; 200]) -> u8
    ensures { (result ≡ 0) × (places.new ≡ nothing) }
{
    board_numbers::empty(places);
    0
}

// A firm files a message on a board, as `board::file` does. The answer is number, field, place and slot; the number is also given back.
#[unsafe(no_mangle)]
pub extern "C" fn beechdoublet_board_file(
    places: &mut [u64; 200],
    strips: &mut [u8; 36000],
    firm: u64,
    msg: &[u8],
    answer: &mut [u64; 4],
) -> u8
    ensures { Called (filing firm msg.now) places.old strips.old result answer.new places.new
        strips.new }
{
    board_numbers::file(places, strips, firm, msg, answer)
}

// A firm offers a message to the strip in one of its slots, as `board::update` does. The answer is number, field, place and 0.
#[unsafe(no_mangle)]
pub extern "C" fn beechdoublet_board_update(
    places: &mut [u64; 200],
    strips: &mut [u8; 36000],
    firm: u64,
    slot: u64,
    msg: &[u8],
    answer: &mut [u64; 4],
) -> u8
    ensures { Called (updating firm slot msg.now) places.old strips.old result answer.new places.new
        strips.new }
{
    board_numbers::update(places, strips, firm, slot, msg, answer)
}

// A firm clears one of its slots, as `board::clear` does. The answer is number, field, place and 0.
#[unsafe(no_mangle)]
pub extern "C" fn beechdoublet_board_clear(
    places: &mut [u64; 200],
    firm: u64,
    slot: u64,
    answer: &mut [u64; 4],
) -> u8
    ensures { Clears firm slot places.old result answer.new places.new }
{
    board_numbers::clear(places, firm, slot, answer)
}

// A firm looks at one of its slots, as `board::look` does. The answer is number, field, place, the state, and where the strip begins and its length.
#[unsafe(no_mangle)]
pub extern "C" fn beechdoublet_board_look(
    places: &[u64; 200],
    strips: &[u8; 36000],
    firm: u64,
    slot: u64,
    answer: &mut [u64; 13],
) -> u8
    ensures { Looks firm slot places.now strips.now result answer.new }
{
    board_numbers::look(places, strips, firm, slot, answer)
}
