// Numbers: 32 bits, signed.
ghost use Rattle.kinds.specs.Numbers.{number_kind};

use crate::kind::Kind;

#[derive(Clone, Copy, Debug, PartialEq, Eq)]
pub struct Number(pub i32);

// The operations.

pub const PLUS: u16 = 0;

pub const MINUS: u16 = 1;

pub const TIMES: u16 = 2;

pub const LESS: u16 = 3;

pub const EQUAL: u16 = 4;

impl Kind for Number {
    ghost kind = { number_kind };

    fn yes() -> Number {
        Number(1)
    }

    fn no() -> Number {
        Number(0)
    }

    fn truth(self) -> bool {
        self.0 != 0
    }

    fn literal(n: u16) -> Number {
        Number(i32::from(n))
    }

    fn same(self, other: Number) -> bool {
        self == other
    }

    fn ops() -> u16 {
        5
    }

    fn operate(op: u16, p: Number, q: Number) -> Number {
        match op {
            PLUS => Number(p.0.wrapping_add(q.0)),
            MINUS => Number(p.0.wrapping_sub(q.0)),
            TIMES => Number(p.0.wrapping_mul(q.0)),
            LESS => Number(i32::from(p.0 < q.0)),
            EQUAL => Number(i32::from(p.0 == q.0)),
            _ => Number(0),
        }
    }
}
