// The words of a mode's record, and of a decision's: each one's place, and how many there are (document 01, "Lent tables").

pub const STATE: usize = 0;

pub const WIDTH: usize = 1;
