// Document 02, R-1, refusal 15: "no word list, in any room, decodes to these records".

ghost use Rattle.std.specs.Prelude.{◌≡◌};
ghost use Rattle.serializer.specs.Tests.{others_in, passed_in};
ghost use Rattle.tables.specs.Records.{words_in, counts_in};

use crate::linked;
use checking::{kept, passes};
use tables::records::Records;

// The sets with their ranges, the modes, the decisions and the actions.
fn others_fine(records: &Records) -> bool
    ensures { result ≡ others_in records.now.ranges.count records.now.sets.count records.now.modes.count records.now.decisions.count records.now.actions.count
        records.now.ranges.words.now records.now.sets.words.now records.now.modes.words.now records.now.decisions.words.now records.now.actions.words.now }
{
    kept::sets_fine(&records.sets, &records.ranges)
        && passes::names_fine(&records.modes)
        && passes::names_fine(&records.decisions)
        && passes::actions_fine(&records.actions)
}

// Whether the records pass all tests.
pub fn fine(records: &Records) -> bool
    ensures { result ≡ passed_in (words_in records.now) (counts_in records.now) }
{
    linked::linked(&records.net, records.sets.count) && others_fine(records)
}
