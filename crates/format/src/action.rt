// The words of an action's record: each one's place, and how many there are (document 01, "Lent tables").

pub const KIND: usize = 0;

pub const D1: usize = 1;

pub const D2: usize = 2;

pub const WIDTH: usize = 3;
