// The states, the edges and the rules whose tail calls are searched for, linked as a decode links them.

ghost use Rattle.atn.specs.Records.{Linked};

#[derive(Clone, Copy)]
pub struct Network<'a> {
    pub states: &'a [i32],
    pub edges: &'a [i32],
    pub rules: &'a [i32],
    pub state_count: usize,
    pub edge_count: usize,
    pub rule_count: usize,
    pub ghost linked: { Linked states.now edges.now rules.now state_count edge_count rule_count },
}
