// The words of a state's record: each one's place, and how many there are (document 01, "Lent tables").

pub const KIND: usize = 0;

pub const RULE: usize = 1;

pub const END: usize = 2;

pub const BACK: usize = 3;

pub const FLAGS: usize = 4;

pub const FIRST: usize = 5;

pub const LAST: usize = 6;

pub const COUNT: usize = 7;

pub const WIDTH: usize = 8;
