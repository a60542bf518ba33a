// The states, the edges and the rules of lent tables, to read. Each table has a lifetime of its own, since they are lent one by one.

use crate::rows::Rows;

#[derive(Clone, Copy)]
pub struct Net<'s, 'e, 'r> {
    pub states: Rows<'s, 8>,
    pub edges: Rows<'e, 8>,
    pub rules: Rows<'r, 3>,
}
