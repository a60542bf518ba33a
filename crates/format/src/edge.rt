// The words of an edge's record: each one's place, and how many there are (document 01, "Lent tables").

pub const KIND: usize = 0;

pub const SOURCE: usize = 1;

pub const TARGET: usize = 2;

pub const P: usize = 3;

pub const Q: usize = 4;

pub const R: usize = 5;

pub const MARK: usize = 6;

pub const NEXT: usize = 7;

pub const WIDTH: usize = 8;
