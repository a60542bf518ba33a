// Document 02, R-1, refusal 15: how many edges come before the first derived one, and whether all marks are right (document 01: "Mark: 0
// plain, 1 derived return edge, 2 tail call").

ghost use Rattle.std.specs.Prelude.{◌≡◌, ◌*◌, ◌≤◌, ◌<◌, length};
ghost use Rattle.atn.specs.Networks.{IdleIn};
ghost use Rattle.wiring.specs.Marks.{own_count, mark_number, mark_for, marks_fine};

use atn::network::Network;
use format::edge;
use tables::rows::Rows;

// "Mark: 0 plain, 1 derived return edge, 2 tail call".
#[derive(Clone, Copy)]
enum Mark {
    Plain,
    Derived,
    TailCall,
}

impl Mark {
    // The number that a record holds.
    fn number(self) -> usize
        ensures { result ≡ mark_number self }
    {
        self as usize
    }
}

// The number of the first edge with the mark 1; of all edges where there is none.
pub fn own_count(edges: &Rows<8>) -> usize
    ensures { result ≡ own_count edges.now.count edges.now.words.now }
{
    (0..edges.count)
        .find(|i| tables::number_at(edges.words, edge::WIDTH * *i + edge::MARK)
            == Mark::Derived.number())
        .unwrap_or(edges.count)
}

// The mark that the edge i has to have; the first o are not derived.
fn mark_for(network: &Network, scratch: &mut [i32], o: usize, i: usize) -> Mark
    requires idle { IdleIn network.now scratch.old }
    requires listed { i < network.now.edge_count }
    ensures value { mark_number result ≡ mark_for network.now.state_count network.now.edge_count network.now.rule_count network.now.states.now network.now.edges.now o i }
    ensures idle_again { IdleIn network.now scratch.new }
{
    if i >= o {
        return Mark::Derived;
    }
    if atn::tail_call_follow_is_safe(network, scratch, i) {
        Mark::TailCall
    } else {
        Mark::Plain
    }
}

// All marks, with what the search for tail calls needs.
pub fn marks_fine(network: &Network, scratch: &mut [i32], o: usize) -> bool
    requires { IdleIn network.now scratch.old }
    ensures { result ≡ marks_fine network.now.state_count network.now.edge_count network.now.rule_count network.now.states.now network.now.edges.now o }
{
    for i in 0..network.edge_count {
        let mark = mark_for(network, scratch, o, i).number();
        if tables::number_at(network.edges, edge::WIDTH * i + edge::MARK) != mark {
            return false;
        }
    }
    true
}
