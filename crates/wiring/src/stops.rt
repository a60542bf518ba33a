// Document 02, R-1, refusal 15: whether the rules' table holds the stops that decode finds (document 01: "A rule's stop is its
// highest-numbered state of type 7 with that rule, else −1").

ghost use Rattle.std.specs.Prelude.{◌≡◌, ◌*◌, ◌≤◌, length};
ghost use Rattle.wiring.specs.Stops.{same_stops, stops_fine};

use format::rule;
use tables::net::Net;

// Whether the stops of k rules are those that were found.
fn same_stops(rules: &[i32], found: &[i32], k: usize) -> bool
    requires { (3 * k ≤ length rules.now) × (3 * k ≤ length found.now) × (k ≤ 65536) }
    ensures { result ≡ same_stops k rules.now found.now }
{
    (0..k).all(|i| {
        let at = rule::WIDTH * i + rule::STOP;
        rules[at] == found[at]
    })
}

// The stops are found anew, in words that are lent for it, three a rule.
pub fn stops_fine(net: &Net, found: &mut [i32]) -> bool
    requires { length found.old ≡ 3 * net.now.rules.count }
    ensures { result ≡ stops_fine net.now.states.count net.now.rules.count net.now.states.words.now net.now.rules.words.now }
{
    found.fill(-1);
    sections::find_stops(net.states.words, found, net.rules.count, net.states.count);
    same_stops(net.rules.words, found, net.rules.count)
}
