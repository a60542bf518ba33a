// Document 01, "Refusal numbers": the two refusals of a question.

ghost use Rattle.std.specs.Prelude.{◌≡◌};
ghost use Rattle.format.specs.Questions as spec;

use format::Denial;
use format::reason::Reason;

// "13: a question names no such record": value the number.
pub fn missing(number: i32) -> Denial
    ensures { result ≡ spec.missing number }
{
    Denial {
        number: Reason::NoSuchRecord.number(),
        value: i64::from(number),
    }
}

// "14: tables of a question contradict themselves": value 0.
pub fn contradiction() -> Denial
    ensures { result ≡ spec.contradiction }
{
    Denial {
        number: Reason::Contradiction.number(),
        value: 0,
    }
}
