// The reading programs of `format` once more, with the lent tables in place: what the code does, word by word. Definitions alone.

#![tactic(auto)]
