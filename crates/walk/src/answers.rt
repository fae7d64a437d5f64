// An answer in the paper's numbers.
ghost use Rattle.std.specs.Prelude.{◌≡◌, Err};
ghost use Rattle.walk.specs.Translate as spec;

use crate::{Answer, Numbers, Refusal};

impl Numbers {
    // The numbers of a refusal that tells nothing more.
    pub fn refusal(answer: u64) -> Numbers
        ensures { result ≡ spec.refusal answer }
    {
        Numbers {
            answer,
            value: 0,
            detail: 0,
            reads: 0,
            memory_type: 0,
        }
    }
}

// The numbers of a refusal.
impl From<Refusal> for Numbers {
    ghost from_gives = { λ why n. n ≡ spec.numbers (Err why) };

    fn from(why: Refusal) -> Numbers {
        match why {
            Refusal::Unknown => Numbers::refusal(1),
            Refusal::NotServed(unserved) => Numbers::refusal(unserved.number()),
            Refusal::Form => Numbers::refusal(3),
            Refusal::Outside(at, level, reads) => Numbers {
                answer: 4,
                value: at.0,
                detail: level,
                reads,
                memory_type: 0,
            },
            Refusal::Fault(code, level, reads) => Numbers {
                answer: 5,
                value: code,
                detail: level,
                reads,
                memory_type: 0,
            },
            Refusal::SpaceNumber => Numbers::refusal(12),
        }
    }
}

// The numbers of an answer.
impl From<Answer> for Numbers {
    ghost from_gives = { λ answer n. n ≡ spec.numbers answer };

    fn from(answer: Answer) -> Numbers {
        match answer {
            Ok(found) => Numbers {
                answer: 0,
                value: found.address.0,
                detail: found.size,
                reads: found.reads,
                memory_type: found.memory_type,
            },
            Err(why) => Numbers::from(why),
        }
    }
}
