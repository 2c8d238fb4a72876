// Lists messages: each piece of standard input on one line, as `OK`, type and spelling, or as `NO`, number, field and place.
#![tactic(auto)]

ghost use Rattle.std.specs.Prelude.{◌≡◌, ◌+◌, ◌*◌, ◌≤◌, length};
ghost use Rattle.io.specs.Counts.{IsPrefixLen};
ghost use Rattle.text.specs.Lent.{front};
ghost use Rattle.listing.specs.Listing.{listed};

use say::Console;
use std::process::ExitCode;

// Writes the listing of an input at the front of `out`. No line takes more than nine times the bytes of its piece, and that of `)` takes nine.
fn put_list(s: &[u8], out: &mut [u8]) -> usize
    requires { 9 * length s.now + 4 ≤ length out.old }
    ensures value { (result ≡ length (listed s.now)) × (out.new ≡ front (listed s.now) out.old) }
    ensures prefix_len { IsPrefixLen result out.new }
{
    let mut o = 0;
    let mut at = pieces::skip_white(s, 0);
    while at < s.len() {
        let e = pieces::piece_end(s, at);
        o += lines::line(&s[at..e], &mut out[o..]).length;
        at = pieces::skip_white(s, e);
    }
    o
}

// The same, with room for every input that is read.
fn list(s: &[u8], out: &mut [u8; 589828]) -> usize
    requires { length s.now ≤ 65536 }
    ensures value { (result ≡ length (listed s.now)) × (out.new ≡ front (listed s.now) out.old) }
    ensures prefix_len { IsPrefixLen result out.new }
{
    put_list(s, out)
}

fn main(rt: HostRuntime) -> ExitCode {
    let console = Console::new(&rt, rt.stderr());
    // A fixed room: nothing is allocated.
    let mut buffer = [0u8; 65537];
    let n = console.messages(&mut rt.stdin(), &mut buffer);
    // A fixed room: nothing is allocated.
    let mut out = [0u8; 589828];
    let k = list(&buffer[..n], &mut out);
    console.print(&out[..k]);
    console.status()
}
