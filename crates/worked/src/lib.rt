// Twelve worked routines over numbers, C1 to C12, each as its rows. What the rules say of them is the contract of `worked_out`.

#![tactic(auto)]

ghost use Rattle.worked.specs.Tables.{commands_1, terms_1, commands_2, terms_2, commands_3, terms_3, commands_4, terms_4, commands_5, terms_5, commands_6, terms_6, commands_7, terms_7, commands_8, terms_8, commands_9, terms_9, commands_10, terms_10, commands_11, terms_11, commands_12, terms_12};
ghost use Rattle.worked.specs.Tabled.{Tabled};
ghost use Rattle.worked.specs.Worked.{WorkedOut};

use kinds::numbers::{EQUAL, LESS, MINUS, PLUS};
use routine::rows::{CommandRow, TermRow};
use routine::{command_row, term_row};

// A routine of v variables.
#[derive(Clone, Copy)]
pub struct Routine {
    pub v: u32,
    pub commands: &'static [CommandRow],
    pub terms: &'static [TermRow],
}

// C1: assume 0 < v0; set v0 to v0 - 1; assert (v0 < 0) = 0.
pub fn first() -> Routine
    ensures { Tabled result 1 commands_1 terms_1 }
{
    Routine {
        v: 1,
        commands: &[
            command_row!(assume term 0 + 3),
            command_row!(assign 0, term 3 + 3),
            command_row!(sequence left 0),
            command_row!(assert term 6 + 5),
            command_row!(sequence left 2),
        ],
        terms: &[
            term_row!(literal 0),
            term_row!(variable 0),
            term_row!(operation LESS),
            term_row!(variable 0),
            term_row!(literal 1),
            term_row!(operation MINUS),
            term_row!(variable 0),
            term_row!(literal 0),
            term_row!(operation LESS),
            term_row!(literal 0),
            term_row!(operation EQUAL),
        ],
    }
}

// C2: set v0 to v0 - 1; assert (v0 < 0) = 0.
pub fn second() -> Routine
    ensures { Tabled result 1 commands_2 terms_2 }
{
    Routine {
        v: 1,
        commands: &[
            command_row!(assign 0, term 0 + 3),
            command_row!(assert term 3 + 5),
            command_row!(sequence left 0),
        ],
        terms: &[
            term_row!(variable 0),
            term_row!(literal 1),
            term_row!(operation MINUS),
            term_row!(variable 0),
            term_row!(literal 0),
            term_row!(operation LESS),
            term_row!(literal 0),
            term_row!(operation EQUAL),
        ],
    }
}

// C3: raise.
pub fn third() -> Routine
    ensures { Tabled result 0 commands_3 terms_3 }
{
    Routine {
        v: 0,
        commands: &[command_row!(raise)],
        terms: &[],
    }
}

// C4: raise, then assert 0.
pub fn fourth() -> Routine
    ensures { Tabled result 0 commands_4 terms_4 }
{
    Routine {
        v: 0,
        commands: &[
            command_row!(raise), // the assertion is not reached
            command_row!(assert term 0 + 1),
            command_row!(sequence left 0),
        ],
        terms: &[term_row!(literal 0)],
    }
}

// C5: set v0 to 1, or skip.
pub fn fifth() -> Routine
    ensures { Tabled result 1 commands_5 terms_5 }
{
    Routine {
        v: 1,
        commands: &[
            command_row!(assign 0, term 0 + 1),
            command_row!(skip),
            command_row!(choice left 0),
        ],
        terms: &[term_row!(literal 1)],
    }
}

// C6: raise, caught by assert 0.
pub fn sixth() -> Routine
    ensures { Tabled result 0 commands_6 terms_6 }
{
    Routine {
        v: 0,
        commands: &[
            command_row!(raise),
            command_row!(assert term 0 + 1),
            command_row!(catch left 0),
        ],
        terms: &[term_row!(literal 0)],
    }
}

// C7: skip.
pub fn seventh() -> Routine
    ensures { Tabled result 0 commands_7 terms_7 }
{
    Routine {
        v: 0,
        commands: &[command_row!(skip)],
        terms: &[],
    }
}

// C8: an assert whose term has no rows.
pub fn eighth() -> Routine
    ensures { Tabled result 1 commands_8 terms_8 }
{
    Routine {
        v: 1,
        commands: &[command_row!(assert term 0 + 0)],
        terms: &[],
    }
}

// C9: an assert whose term is an operation alone.
pub fn ninth() -> Routine
    ensures { Tabled result 1 commands_9 terms_9 }
{
    Routine {
        v: 1,
        commands: &[command_row!(assert term 0 + 1)],
        terms: &[term_row!(operation PLUS)],
    }
}

// C10: set v1 to 0, where there is only v0.
pub fn tenth() -> Routine
    ensures { Tabled result 1 commands_10 terms_10 }
{
    Routine {
        v: 1,
        commands: &[command_row!(assign 1, term 0 + 1)],
        terms: &[term_row!(literal 0)],
    }
}

// C11: skip and skip, not joined.
pub fn eleventh() -> Routine
    ensures { Tabled result 0 commands_11 terms_11 }
{
    Routine {
        v: 0,
        commands: &[command_row!(skip), command_row!(skip)],
        terms: &[],
    }
}

// C12: skip and skip, joined by a sequence whose left part would end where its right part does.
pub fn twelfth() -> Routine
    ensures { Tabled result 0 commands_12 terms_12 }
{
    Routine {
        v: 0,
        commands: &[
            command_row!(skip),
            command_row!(skip),
            command_row!(sequence left 1),
        ],
        terms: &[],
    }
}

// What the rules say of the twelve.
#[tactic(auto, using(crate::proofs::Worked::worked_out))]
pub fn worked_out()
    ensures { WorkedOut }
{}
