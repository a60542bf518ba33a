// The C interface for firmware: include/gatehazel.h. Each function asks one question of document 01 or 02 and hands its answer over as the
// number and the values that `format`'s Answers set out for it.

#![tactic(auto)]

mod handing;

ghost use Rattle.std.specs.Prelude.{◌≡◌, [], length};
ghost use Rattle.format.specs.Decode.{decoded};
ghost use Rattle.inplace.specs.Whole.{tables};
ghost use Rattle.serialized.specs.Rooms.{lengths};
ghost use Rattle.serialized.specs.Answered.{left_by};
ghost use Rattle.format.specs.Answers.{of_decoded, of_nth_edge, of_matching, of_set_part};
ghost use Rattle.format.specs.Sections.{bit};
ghost use Rattle.format.specs.Tables.{nine};
ghost use Rattle.format.specs.Questions.{lookup, nth_edge, set_part};
ghost use Rattle.format.specs.Questions as spec;
ghost use Rattle.capi.specs.Handed.{Hands};
ghost use Rattle.capi.specs.Written.{HandsWriting};

// "The answer of a decode", and the nine tables as `gatehazel::decode` leaves them.
#[unsafe(no_mangle)]
pub extern "C" fn gatehazel_decode(
    words: &[i32],
    states: &mut [i32],
    edges: &mut [i32],
    ranges: &mut [i32],
    sets: &mut [i32],
    rules: &mut [i32],
    modes: &mut [i32],
    decisions: &mut [i32],
    actions: &mut [i32],
    scratch: &mut [i32],
    answer: &mut [i64],
) -> u32
    ensures said { Hands (of_decoded (decoded (lengths (tables states.old edges.old ranges.old sets.old rules.old modes.old decisions.old actions.old scratch.old)) words.now 0).told) result answer.old answer.new }
    ensures left { (tables states.new edges.new ranges.new sets.new rules.new modes.new decisions.new actions.new scratch.new) ≡ left_by (decoded (lengths (tables states.old edges.old ranges.old sets.old rules.old modes.old decisions.old actions.old scratch.old)) words.now 0) }
{
    let found = gatehazel::decode(
        words, states, edges, ranges, sets, rules, modes, decisions, actions, scratch,
    );
    handing::decoded(found, answer)
}

// Document 02, R-1: "Write the words for a set of lent tables, record counts and max token type, into a lent slice."
#[unsafe(no_mangle)]
pub extern "C" fn gatehazel_write(
    states: &[i32],
    states_count: usize,
    edges: &[i32],
    edges_count: usize,
    ranges: &[i32],
    ranges_count: usize,
    sets: &[i32],
    sets_count: usize,
    rules: &[i32],
    rules_count: usize,
    modes: &[i32],
    modes_count: usize,
    decisions: &[i32],
    decisions_count: usize,
    actions: &[i32],
    actions_count: usize,
    max_token_type: i32,
    out: &mut [i32],
    answer: &mut [i64],
) -> u32
    ensures { HandsWriting (nine states.now edges.now ranges.now sets.now rules.now modes.now decisions.now actions.now []) (nine states_count edges_count ranges_count sets_count rules_count modes_count decisions_count actions_count 0) max_token_type (length out.old) result answer.old answer.new out.new }
{
    let found = gatehazel::write(
        states,
        states_count,
        edges,
        edges_count,
        ranges,
        ranges_count,
        sets,
        sets_count,
        rules,
        rules_count,
        modes,
        modes_count,
        decisions,
        decisions_count,
        actions,
        actions_count,
        max_token_type,
        out,
    );
    handing::written(found, answer)
}

// "the number of a state's n-th edge (n from 0)"
#[unsafe(no_mangle)]
pub extern "C" fn gatehazel_nth_edge(
    states: &[i32],
    state_count: usize,
    edges: &[i32],
    edge_count: usize,
    state: i32,
    n: i32,
    answer: &mut [i64],
) -> u32
    ensures { Hands (of_nth_edge (nth_edge states.now state_count edges.now edge_count state n)) result answer.old answer.new }
{
    let found = questions::nth_edge(states, state_count, edges, edge_count, state, n);
    handing::nth_edge(found, answer)
}

// "whether an edge matches a symbol given min and max"
#[unsafe(no_mangle)]
pub extern "C" fn gatehazel_matches(
    edges: &[i32],
    edge_count: usize,
    sets: &[i32],
    set_count: usize,
    ranges: &[i32],
    range_count: usize,
    edge: i32,
    symbol: i32,
    min: i32,
    max: i32,
    answer: &mut [i64],
) -> u32
    ensures { Hands (of_matching (spec.matches edges.now edge_count sets.now set_count ranges.now range_count edge symbol min max)) result answer.old answer.new }
{
    let found = questions::matches(
        edges,
        edge_count,
        sets,
        set_count,
        ranges,
        range_count,
        edge,
        symbol,
        min,
        max,
    );
    handing::matching(found, answer)
}

// "a set's ranges as a part of the lent table"
#[unsafe(no_mangle)]
pub extern "C" fn gatehazel_set(
    sets: &[i32],
    set_count: usize,
    ranges: &[i32],
    range_count: usize,
    set: i32,
    answer: &mut [i64],
) -> u32
    ensures { Hands (of_set_part (set_part sets.now set_count ranges.now range_count set)) result answer.old answer.new }
{
    let found = questions::set_part(sets, set_count, ranges, range_count, set);
    handing::set_part(found, answer)
}

// "lookup in a lent list of ranges": 1 or 0.
#[unsafe(no_mangle)]
pub extern "C" fn gatehazel_lookup(ranges: &[i32], value: i32) -> u32
    ensures { result ≡ bit (lookup ranges.now value) }
{
    u32::from(ranges::contains(ranges, value))
}
