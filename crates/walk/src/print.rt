// The text of an answer.
ghost use Rattle.std.specs.Prelude.{Some};
ghost use Rattle.walk.specs.Print as spec;

use crate::Numbers;
use std::fmt;

// "answer value detail reads memory_type", the value in 16 hexadecimal digits.
impl fmt::Display for Numbers {
    ghost output = { λ n. Some (spec.text n) };

    fn fmt<W: fmt::Write>(&self, f: &mut fmt::Formatter<W>) -> fmt::Result {
        let Numbers {
            answer,
            value,
            detail,
            reads,
            memory_type,
        } = *self;
        write!(f, "{answer} {value:016x} {detail} {reads} {memory_type}")
    }
}
