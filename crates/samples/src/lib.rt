// The sample: make v0 positive, asserting that it is; count v1 down where it is positive; assert that v0 is not negative.

#![tactic(auto)]

ghost use Rattle.std.specs.Prelude.{◌≡◌, Ok};
ghost use Rattle.routine.specs.Decoding.{decode};
ghost use Rattle.samples.specs.Sample.{sample_routine};

use kinds::numbers::{EQUAL, LESS, MINUS};
use routine::rows::{CommandRow, TermRow};
use routine::{command_row, term_row};

#[derive(Drop)]
pub struct Sample {
    pub commands: [CommandRow; 15],
    pub terms: [TermRow; 19],
}

// The rows of the routine. Its terms overlap: `v0 < 0` is a part of `(v0 < 0) = 0`, and `0 < v1` of `(0 < v1) = 0`.
pub fn make_sample() -> Sample
    ensures { decode 2 5 result.commands result.terms ≡ Ok sample_routine }
{
    Sample {
        commands: [
            command_row!(assume term 0 + 3),
            command_row!(assign 0, term 5 + 3),
            command_row!(sequence left 0),
            command_row!(assert term 8 + 3),
            command_row!(sequence left 2),
            command_row!(assume term 0 + 5),
            command_row!(choice left 4),
            command_row!(assume term 11 + 3),
            command_row!(assign 1, term 16 + 3),
            command_row!(sequence left 7),
            command_row!(assume term 11 + 5),
            command_row!(choice left 9),
            command_row!(sequence left 6),
            command_row!(assert term 0 + 5),
            command_row!(sequence left 12),
        ],
        terms: [
            // (v0 < 0) = 0
            term_row!(variable 0),
            term_row!(literal 0),
            term_row!(operation LESS),
            term_row!(literal 0),
            term_row!(operation EQUAL),
            // 0 - v0
            term_row!(literal 0),
            term_row!(variable 0),
            term_row!(operation MINUS),
            // 0 < v0
            term_row!(literal 0),
            term_row!(variable 0),
            term_row!(operation LESS),
            // (0 < v1) = 0
            term_row!(literal 0),
            term_row!(variable 1),
            term_row!(operation LESS),
            term_row!(literal 0),
            term_row!(operation EQUAL),
            // v1 - 1
            term_row!(variable 1),
            term_row!(literal 1),
            term_row!(operation MINUS),
        ],
    }
}
