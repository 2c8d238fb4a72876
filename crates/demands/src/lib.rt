// The demands as contracts of the calls that they speak of, so that the checker ties them to the code: each function here only calls the
// library's. The statements are in specs/, and beside them the examples of document 01.
#![tactic(auto)]

ghost use Rattle.demands.specs.Demands.{Reads, Demand1, Demand2};
ghost use Rattle.demands.specs.Turns.{standing, offer, Updates, Turns};
ghost use Rattle.demands.specs.Whys.{Why};

use causes::Cause;
use message::Answer;
use state::Strip;
use strip::Updated;

// Reading a message: demands 1 and 2.
pub fn read(msg: &[u8], out: &mut [u8]) -> Answer
    ensures reads { Reads msg.now out.old result out.new }
    ensures demand1 { Demand1 msg.now out.old result out.new }
    ensures demand2 { Demand2 Reads msg.now out.old result out.new }
{
    message::read(msg, out)
}

// Offering a message to a strip: demand 3, at this turn of whatever run the strip has come from.
pub fn update(strip: &[u8], held: Strip, msg: &[u8], out: &mut [u8]) -> Updated
    ensures updates { Updates (standing strip.now held) (offer msg.now out.old) result out.new }
    ensures turns { Turns (standing strip.now held) (offer msg.now out.old) result out.new }
{
    strip::update(strip, held, msg, out)
}

// Why it is refused: for 12 the set of what differs, for 10 the missing key, for 13 the state found.
pub fn cause(strip: &[u8], held: Strip, msg: &[u8]) -> Cause
    ensures { Why strip.now held msg.now result }
{
    causes::cause_of(strip, held, msg)
}
