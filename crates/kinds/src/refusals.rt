// Why a call is refused.
ghost use Rattle.std.specs.Prelude.{◌≡◌, Some};
ghost use Rattle.kinds.specs.Refusals.{refusal_number};
ghost use Rattle.kinds.specs.Printed.{refusal_text};

use std::fmt;

// Each is the number that stands for it in the rules.
#[derive(Clone, Copy, Debug, PartialEq, Eq)]
pub enum Refusal {
    Limits = 1,
    Tag = 2,
    Target = 3,
    Term = 4,
    Parts = 5,
    Whole = 6,
    Names = 7,
    WorkTable = 8,
    Places = 9,
    Entries = 10,
    NotInUse = 11,
    Struck = 12,
}

impl Refusal {
    // The number that stands for the refusal in the rules.
    pub fn number(self) -> u32
        ensures { result ≡ refusal_number self }
    {
        self as u32
    }
}

impl fmt::Display for Refusal {
    ghost output = { λ e. Some (refusal_text e) };

    fn fmt<W: fmt::Write>(&self, f: &mut fmt::Formatter<W>) -> fmt::Result {
        write!(f, "refused with {}", self.number())
    }
}
