// All eight tables that are lent to be read: the states, the edges and the rules, and what hangs on them.

use crate::net::Net;
use crate::rows::Rows;

#[derive(Clone, Copy)]
pub struct Records<'a> {
    pub net: Net<'a, 'a, 'a>,
    pub ranges: Rows<'a, 2>,
    pub sets: Rows<'a, 2>,
    pub modes: Rows<'a, 1>,
    pub decisions: Rows<'a, 1>,
    pub actions: Rows<'a, 3>,
}
