// The words of a rule's record: each one's place, and how many there are (document 01, "Lent tables").

pub const START: usize = 0;

pub const STOP: usize = 1;

pub const TOKEN: usize = 2;

pub const WIDTH: usize = 3;
