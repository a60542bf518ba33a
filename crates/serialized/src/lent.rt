// Document 01, "Lent tables": the nine tables that are lent, how many records there is room for in them, and how they are cleared.

ghost use Rattle.std.specs.Prelude.{◌≡◌, ◌/◌, ◌<◌, length, min};
ghost use Rattle.inplace.specs.Whole.{blank};
ghost use Rattle.serialized.specs.Rooms.{lengths, rooms_of};
ghost use Rattle.serialized.specs.Kept.{tables_of, Kept};

use format::{action, edge, name, range, rule, set, state};
use tables::{MOST, SCRATCH};

// Records for which there is room, in each table.
#[derive(Clone, Copy)]
pub struct Rooms {
    pub states: usize,
    pub edges: usize,
    pub ranges: usize,
    pub sets: usize,
    pub rules: usize,
    pub modes: usize,
    pub decisions: usize,
    pub actions: usize,
}

// Whole records of a width in a table.
fn whole(table: &[i32], width: usize) -> usize
    requires { 0 < width }
    ensures { result ≡ min 65536 (length table.now / width) }
{
    MOST.min(table.len() / width)
}

// The nine tables together: what one function lends another.
#[derive(Drop)]
pub struct Lent<'a> {
    pub states: &'a mut [i32],
    pub edges: &'a mut [i32],
    pub ranges: &'a mut [i32],
    pub sets: &'a mut [i32],
    pub rules: &'a mut [i32],
    pub modes: &'a mut [i32],
    pub decisions: &'a mut [i32],
    pub actions: &'a mut [i32],
    pub scratch: &'a mut [i32],
}

impl Lent<'_> {
    // "Room for states is the smaller of the states' and the scratch's."
    pub fn rooms(&self) -> Rooms
        ensures { result ≡ rooms_of (lengths (tables_of self.now)) }
    {
        Rooms {
            states: whole(self.states, state::WIDTH).min(whole(self.scratch, SCRATCH)),
            edges: whole(self.edges, edge::WIDTH),
            ranges: whole(self.ranges, range::WIDTH),
            sets: whole(self.sets, set::WIDTH),
            rules: whole(self.rules, rule::WIDTH),
            modes: whole(self.modes, name::WIDTH),
            decisions: whole(self.decisions, name::WIDTH),
            actions: whole(self.actions, action::WIDTH),
        }
    }

    // Every word of every table becomes 0. (Inlined: a decode takes 96 bytes of stack less.)
    #[inline(always)]
    pub fn clear(&mut self)
        ensures kept { Kept self.old self.new }
        ensures cleared { tables_of self.new ≡ blank (lengths (tables_of self.old)) }
    {
        tables::clear(self.states);
        tables::clear(self.edges);
        tables::clear(self.ranges);
        tables::clear(self.sets);
        tables::clear(self.rules);
        tables::clear(self.modes);
        tables::clear(self.decisions);
        tables::clear(self.actions);
        tables::clear(self.scratch);
    }
}
