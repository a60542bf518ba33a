// Document 01, "Edge types": what an edge keeps of a, b and c.
// From the Rust's atn/serialized.rs: the arguments of `decode_transition`.

ghost use Rattle.std.specs.Prelude.{◌≡◌};
ghost use Rattle.format.specs.Sections as spec;

// a, or the end of input if c is not 0.
pub fn label(a: i32, c: i32) -> i32
    ensures { result ≡ spec.label a c }
{
    if words::raised(c) { -1 } else { a }
}

// 1 if c is not 0.
pub fn truth(c: i32) -> i32
    ensures { result ≡ spec.truth c }
{
    i32::from(words::raised(c))
}
