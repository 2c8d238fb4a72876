// Why an update is refused: what differs, the missing key, or the state found.
#![tactic(auto)]

ghost use Rattle.std.specs.Prelude.{◌≡◌};
ghost use Rattle.text.specs.Words.{split};
ghost use Rattle.message.specs.Reading.{unexplained_in};
ghost use Rattle.amending.specs.Amended.{amended};
ghost use Rattle.strip.specs.Steps.{Texts};
ghost use Rattle.causes.specs.Causes.{key_for, amended_cause, offered_cause, cause_of};

use kinds::Role;
use state::{State, Strip};
use strip::Differences;

// A key of field 18 that a field wants and does not find.
#[derive(Clone, Copy)]
pub enum Key {
    Typ,
    Dep,
    Dest,
    Altn,
}

// What is shown of an update's answer beside its numbers. Not an Option of the other three: each of the four has its line (`say_cause`) and its number
// in C, and whoever takes a cause tells all four apart in one match.
#[derive(Clone, Copy)]
pub enum Cause {
    NothingMore,
    Another(Differences),
    Missing(Key),
    Forbidden(State),
}

// The key that the field named wants, from the text of a plan; of 16, DEST before ALTN.
fn key_for(field: u8, plan: &[u8]) -> Key
    ensures { result ≡ key_for field (split 45 plan.now) }
{
    if field == 9 {
        return Key::Typ;
    }
    if field == 13 {
        return Key::Dep;
    }
    if plan::without_dest(
        amending::field(plan, kinds::PLAN_16),
        amending::field(plan, kinds::PLAN_18),
    ) {
        return Key::Dest;
    }
    Key::Altn
}

// Number 10 of the amended plan, which is written once, to a scratch with room for strip and message together.
fn amended_cause<'a>(role: Role, plan: &'a [u8], said: &'a [u8]) -> Cause
    requires { Texts plan.now said.now }
    ensures { result ≡ amended_cause (amended role plan.now said.now) }
{
    // A fixed room: nothing is allocated.
    let mut new = [0u8; strip::ROOM];
    let n = amending::write_amended(role, plan, said, &mut new);
    let e = n - 1;
    match message::unexplained_in(&new[1..e]) {
        None => Cause::NothingMore,
        Some(field) => Cause::Missing(key_for(field, &new[1..e])),
    }
}

// Numbers 12 and 13, and what the amended plan gives.
fn offered_cause<'a>(role: Role, held: Strip, plan: &'a [u8], said: &'a [u8]) -> Cause
    requires { Texts plan.now said.now }
    ensures { result ≡ offered_cause role plan.now held said.now }
{
    match strip::event_of(role, said) {
        None => Cause::NothingMore,
        Some(e) => {
            let found = strip::differences_in(role, plan, said);
            if found.any() {
                return Cause::Another(found);
            }
            if !held.allows(e) {
                let state = held.state;
                return Cause::Forbidden(state);
            }
            amended_cause(role, plan, said)
        }
    }
}

// Why `strip::update` refuses a message, however much room is lent to it; nothing more where it takes it, or where its number shows no cause.
pub fn cause_of(strip: &[u8], held: Strip, msg: &[u8]) -> Cause
    ensures { result ≡ cause_of strip.now held msg.now }
{
    // A fixed room: nothing is allocated.
    let mut scratch = [0u8; outer::MOST_BYTES];
    match opening::open_strip(strip, held, msg, &mut scratch) {
        Err(_) => Cause::NothingMore,
        Ok((t, n)) => {
            let e = n - 1;
            let last = strip.len() - 1;
            offered_cause(t.role(), held, &strip[1..last], &scratch[1..e])
        }
    }
}
