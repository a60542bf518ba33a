// Document 02, R-1, refusal 15: whether flag 4 stands exactly where decode sets it (document 01: "Flag 4 is set on a type 10 state if ..").

ghost use Rattle.std.specs.Prelude.{◌≡◌, ◌<◌};
ghost use Rattle.wiring.specs.Decisions.{decision_fine, decisions_fine};

use format::state;
use tables::net::Net;

// The state s: its flags are 4 or more exactly if it is a precedence decision.
fn decision_fine(net: &Net, s: usize) -> bool
    requires { s < net.now.states.count }
    ensures { result ≡ decision_fine net.now.states.count net.now.edges.count net.now.rules.count net.now.states.words.now net.now.edges.words.now net.now.rules.words.now s }
{
    let flags = tables::number_at(net.states.words, state::WIDTH * s + state::FLAGS);
    links::decides(net, s) == (4 <= flags)
}

// All states.
pub fn decisions_fine(net: &Net) -> bool
    ensures { result ≡ decisions_fine net.now.states.count net.now.edges.count net.now.rules.count net.now.states.words.now net.now.edges.words.now net.now.rules.words.now }
{
    (0..net.states.count).all(|s| decision_fine(net, s))
}
