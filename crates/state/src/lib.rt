// The state of a flight: what it allows, and where an accepted message leaves it.
#![tactic(auto)]

ghost use Rattle.std.specs.Prelude.{◌≡◌};
ghost use Rattle.state.specs.State.{allowed_departed, allowed_in, departure_of, next_state, next_of};
ghost use Rattle.state.specs.State.{sound_clock, sound_departure, sound_landing, sound_arrival, sound};

use aerodromes::Aerodrome;
use shape::Clock;

// An arrived flight has the time at which it departed, if that is known.
#[derive(Clone, Copy)]
pub enum State {
    Filed,
    Departed(Clock),
    Arrived(Option<Clock>, Aerodrome, Clock),
    Cancelled,
}

#[derive(Clone, Copy)]
pub struct Strip {
    pub state: State,
}

// What a message says of the state: CHG, DLA, CNL, DEP with the time of its field 13, ARR with its field 17.
#[derive(Clone, Copy)]
pub enum Event {
    Change,
    Delay,
    Cancel,
    Depart(Clock),
    Arrive(Aerodrome, Clock),
}

const LAST_MINUTE: u16 = 1439;

// What is allowed of a flight that has departed.
fn allows_departed(e: Event) -> bool
    ensures { result ≡ allowed_departed e }
{
    matches!(e, Event::Change | Event::Arrive(_, _))
}

// The departure time, if known.
fn departed_at(s: State) -> Option<Clock>
    ensures { result ≡ departure_of s }
{
    match s {
        State::Filed | State::Cancelled => None,
        State::Departed(t) => Some(t),
        State::Arrived(d, _, _) => d,
    }
}

fn next_state(s: State, e: Event) -> State
    ensures { result ≡ next_state s e }
{
    match e {
        Event::Change | Event::Delay => s,
        Event::Cancel => State::Cancelled,
        Event::Depart(t) => State::Departed(t),
        Event::Arrive(a, t) => State::Arrived(departed_at(s), a, t),
    }
}

fn is_sound_clock(t: Clock) -> bool
    ensures { result ≡ sound_clock t }
{
    t.0 <= LAST_MINUTE
}

fn is_sound_departure(d: Option<Clock>) -> bool
    ensures { result ≡ sound_departure d }
{
    match d {
        Some(t) => is_sound_clock(t),
        None => true,
    }
}

fn is_sound_landing(a: Aerodrome, t: Clock) -> bool
    ensures { result ≡ sound_landing a t }
{
    a.is_letters() && is_sound_clock(t)
}

fn is_sound_arrival(d: Option<Clock>, a: Aerodrome, t: Clock) -> bool
    ensures { result ≡ sound_arrival d a t }
{
    is_sound_departure(d) && is_sound_landing(a, t)
}

impl Strip {
    // Whether the state allows the message.
    pub fn allows(self, e: Event) -> bool
        ensures { result ≡ allowed_in self e }
    {
        match self.state {
            State::Filed => true,
            State::Departed(_) => allows_departed(e),
            State::Arrived(_, _, _) | State::Cancelled => false,
        }
    }

    // The strip after an accepted message.
    pub fn next(self, e: Event) -> Strip
        ensures { result ≡ next_of self e }
    {
        Strip {
            state: next_state(self.state, e),
        }
    }

    // Whether the state holds no time over 1,439 minutes and no aerodrome but of four letters.
    pub fn is_sound(self) -> bool
        ensures { result ≡ sound self }
    {
        match self.state {
            State::Filed | State::Cancelled => true,
            State::Departed(t) => is_sound_clock(t),
            State::Arrived(d, a, t) => is_sound_arrival(d, a, t),
        }
    }
}
