// The words of a set's record: each one's place, and how many there are (document 01, "Lent tables").

pub const FIRST: usize = 0;

pub const COUNT: usize = 1;

pub const WIDTH: usize = 2;
