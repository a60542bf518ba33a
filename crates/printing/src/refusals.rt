// Why a dialect was refused, which `show` and `rewrite` say in the same words.

use crate::names::{Field, Owner};
use format::Refusal;
use format::reason::Reason;
use std::fmt;
use std::fmt::Display;

// A refusal's number, and what it means.
#[derive(Clone, Copy)]
struct Numbered(u32);

impl Display for Numbered {
    fn fmt<W: fmt::Write>(&self, f: &mut fmt::Formatter<W>) -> fmt::Result {
        let number = self.0;
        match Reason::try_from(number) {
            Ok(reason) => write!(f, "refused {number}: {reason}"),
            Err(_) => write!(f, "refused {number}"),
        }
    }
}

// A decoder's refusal: number, meaning, record, field, place and value; where there is no room, also how many records of each table there
// was room for.
#[derive(Clone, Copy)]
pub struct Undecoded {
    pub refusal: Refusal,
    pub room: usize,
}

impl Display for Undecoded {
    fn fmt<W: fmt::Write>(&self, f: &mut fmt::Formatter<W>) -> fmt::Result {
        let Refusal {
            number,
            field,
            record,
            place,
            value,
        } = self.refusal;
        let refused = Numbered(number);
        let owner = Owner { field, record };
        let name = Field(field);
        write!(
            f,
            "{refused}{owner}; field {field} ({name}), place {place}, value {value}"
        )?;
        if number == Reason::NoRoom.number() {
            let room = self.room;
            write!(f, "; here is room for {room} records of each table")?;
        }
        Ok(())
    }
}

// A writer's refusal: the number and its meaning; it has no more.
#[derive(Clone, Copy)]
pub struct Unwritten(pub Refusal);

impl Display for Unwritten {
    fn fmt<W: fmt::Write>(&self, f: &mut fmt::Formatter<W>) -> fmt::Result {
        let refused = Numbered(self.0.number);
        write!(f, "not written, {refused}")
    }
}
