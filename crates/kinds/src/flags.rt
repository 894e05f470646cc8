// Flags: no and yes.
ghost use Rattle.kinds.specs.Flags.{flag_kind};

use crate::kind::Kind;

#[derive(Clone, Copy, Debug, PartialEq, Eq)]
pub struct Flag(pub bool);

impl Kind for Flag {
    ghost kind = { flag_kind };

    fn yes() -> Flag {
        Flag(true)
    }

    fn no() -> Flag {
        Flag(false)
    }

    fn truth(self) -> bool {
        self.0
    }

    fn literal(n: u16) -> Flag {
        Flag(n != 0)
    }

    fn same(self, other: Flag) -> bool {
        self == other
    }

    fn ops() -> u16 {
        16
    }

    // The number of an operation is its truth table.
    fn operate(op: u16, p: Flag, q: Flag) -> Flag {
        if op >= 16 {
            return Flag(false);
        }
        let bit = 2 * u16::from(p.0) + u16::from(q.0);
        Flag((op >> bit) % 2 == 1)
    }
}
