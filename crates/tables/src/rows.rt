// Records that are lent to be read: so many of W words each, which lie in their table and are no more than the "65,536 at most" that any
// room holds.

ghost use Rattle.std.specs.Prelude.{◌≡◌, ◌&&◌, false, true, ◌*◌, ◌/◌, ◌<◌, ◌≤◌, leb, length};
ghost use Rattle.std.specs.Option.{MatchOption};
ghost use Rattle.format.specs.Tables.{row_at};
ghost use Rattle.format.specs.Writing.{rows_of};

use crate::MOST;

#[derive(Clone, Copy)]
pub struct Rows<'a, const W: usize> {
    pub words: &'a [i32],
    pub count: usize,
    pub ghost lie: { W * count ≤ length words.now },
    pub ghost few: { count ≤ 65536 },
}

impl<'a, const W: usize> Rows<'a, W> {
    // The first records of a lent table, so many; none if the table has fewer whole records, or no room holds so many.
    pub fn lent(words: &'a [i32], count: usize) -> Option<Self>
        requires { 0 < W }
        ensures { MatchOption result
            ((leb count (length words.now / W) && leb count 65536) ≡ false)
            (λ rows. ((leb count (length words.now / W) && leb count 65536) ≡ true) × (rows.words.now ≡ words.now) × (rows.count ≡ count)) }
    {
        if count <= words.len() / W && count <= MOST {
            Some(Rows { words, count })
        } else {
            None
        }
    }

    // The records, each with its words.
    pub fn counted(&self) -> &'a [[i32; W]]
        requires { 0 < W }
        ensures { result.now ≡ rows_of W self.now.count self.now.words.now }
    {
        let (records, _) = self.words.as_chunks();
        &records[..self.count]
    }

    // Record i.
    pub fn row(&self, i: usize) -> &'a [i32]
        requires { i < self.now.count }
        ensures value { result.now ≡ row_at W self.now.words.now i }
        ensures whole { length result.now ≡ W }
    {
        crate::row(self.words, W, i)
    }
}
