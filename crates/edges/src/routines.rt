// The check at its limits.
ghost use Rattle.std.specs.Prelude.{◌≡◌, ◌^◌, ◌<◌, [], ◌∷◌, length};
ghost use Rattle.routine.specs.Decoding.{decode, verdict};
ghost use Rattle.worked.specs.Tables.{assign_row, literal_row, operation_row};

use crate::rows::{item, row};
use kinds::flags::Flag;
use kinds::kind::Kind;
use kinds::numbers::Number;
use kinds::refusals::Refusal;
use passify::calls::{FormMeasures, measure};
use routine::checks::check;
use routine::rows::TermRow;
use routine::{command_row, term_row};
use shapes::{SKIP, fill_chains, fill_sum};
use std::test::Fail;

// One command row over the terms: a set of v0.
fn set_to(v: u32, terms: &[TermRow]) -> Result<(), Refusal>
    ensures { length terms.now < 2 ^ 32 → result ≡ verdict (decode v 5 (assign_row 0 0 (length terms.now) ∷ []) terms.now) }
{
    let count = u32::try_from(terms.len()).unwrap_or(0);
    check::<Number>(v, &[command_row!(assign 0, term 0 + count)], terms)
}

// An operation over two zeros.
fn over_zeros(operation: u16) -> [TermRow; 3]
    ensures { result ≡ literal_row 0 ∷ literal_row 0 ∷ operation_row operation ∷ [] }
{
    [
        term_row!(literal 0),
        term_row!(literal 0),
        term_row!(operation operation),
    ]
}

#[test]
fn tables(rt: HostRuntime) -> Result<(), Fail> {
    let skip = [SKIP];
    assert_eq!(rt; check::<Number>(32, &skip, &[]), Ok(()));
    assert_eq!(rt; check::<Number>(33, &skip, &[]), Err(Refusal::Limits));
    assert_eq!(rt; check::<Number>(0, &skip, &[]), Ok(()));
    assert_eq!(rt; check::<Number>(0, &[], &[]), Err(Refusal::Limits));
    let terms = vec![in rt.alloc(); item(9, 9); 4096]?;
    assert_eq!(rt; check::<Number>(0, &skip, terms.as_slice()), Ok(()));
    let terms = vec![in rt.alloc(); item(9, 9); 4097]?;
    assert_eq!(rt;
        check::<Number>(0, &skip, terms.as_slice()),
        Err(Refusal::Limits)
    );
    let mut rows = [SKIP; 1024];
    fill_chains(&mut rows[0..1023], 15);
    assert_eq!(rt; check::<Number>(0, &rows[0..1023], &[]), Ok(()));
    assert_eq!(rt;
        measure::<Number>(0, &rows[0..1023], &[]),
        Ok(FormMeasures {
            names: 0,
            rows: 1023,
            terms: 0,
            nodes: 2556,
        })
    );
    assert_eq!(rt; check::<Number>(0, &rows, &[]), Err(Refusal::Limits));
    Ok(())
}

#[test]
fn tags_and_targets(rt: HostRuntime) {
    let one = [term_row!(literal 65535)];
    assert_eq!(rt;
        check::<Number>(1, &[row(0, 0, 0, 1, 0)], &one),
        Err(Refusal::Tag)
    );
    assert_eq!(rt;
        check::<Number>(1, &[row(9, 0, 0, 1, 0)], &one),
        Err(Refusal::Tag)
    );
    assert_eq!(rt;
        check::<Number>(32, &[command_row!(assign 31, term 0 + 1)], &one),
        Ok(())
    );
    assert_eq!(rt;
        check::<Number>(32, &[command_row!(assign 32, term 0 + 1)], &one),
        Err(Refusal::Target)
    );
    assert_eq!(rt;
        check::<Number>(0, &[command_row!(assign 0, term 0 + 1)], &one),
        Err(Refusal::Target)
    );
    assert_eq!(rt;
        check::<Number>(1, &[row(1, u32::MAX, 0, 1, u32::MAX)], &one),
        Ok(())
    );
    assert_eq!(rt;
        check::<Number>(1, &[row(2, u32::MAX, 0, 1, u32::MAX)], &one),
        Ok(())
    );
    assert_eq!(rt;
        check::<Number>(0, &[row(4, 9, u32::MAX, u32::MAX, 9)], &one),
        Ok(())
    );
    assert_eq!(rt;
        check::<Number>(0, &[row(5, 9, u32::MAX, u32::MAX, 9)], &one),
        Ok(())
    );
}

#[test]
fn term_rows(rt: HostRuntime) {
    assert_eq!(rt; set_to(1, &[term_row!(variable 0)]), Ok(()));
    assert_eq!(rt; set_to(1, &[term_row!(variable 1)]), Err(Refusal::Term));
    assert_eq!(rt; set_to(1, &[item(0, 0)]), Err(Refusal::Term));
    assert_eq!(rt; set_to(1, &[item(4, 0)]), Err(Refusal::Term));
    assert_eq!(rt; set_to(1, &over_zeros(4)), Ok(()));
    assert_eq!(rt; set_to(1, &over_zeros(5)), Err(Refusal::Term));
    assert_eq!(rt;
        set_to(1, &[term_row!(literal 0), term_row!(operation 0)]),
        Err(Refusal::Term)
    );
    assert_eq!(rt;
        set_to(1, &[term_row!(literal 0), term_row!(literal 0)]),
        Err(Refusal::Term)
    );
    assert_eq!(rt; set_to(1, &[]), Err(Refusal::Term));
}

#[test]
fn operations_of_flags(rt: HostRuntime) {
    let commands = [command_row!(assert term 0 + 3)];
    assert_eq!(rt; check::<Flag>(0, &commands, &over_zeros(15)), Ok(()));
    assert_eq!(rt;
        check::<Flag>(0, &commands, &over_zeros(16)),
        Err(Refusal::Term)
    );
}

#[test]
fn terms_in_their_table(rt: HostRuntime) {
    let terms = [
        term_row!(literal 0),
        term_row!(variable 0),
        term_row!(operation 0),
    ];
    assert_eq!(rt;
        check::<Number>(1, &[command_row!(assert term 0 + 3)], &terms),
        Ok(())
    );
    assert_eq!(rt;
        check::<Number>(1, &[command_row!(assert term 1 + 1)], &terms),
        Ok(())
    );
    assert_eq!(rt;
        check::<Number>(1, &[command_row!(assert term 1 + 3)], &terms),
        Err(Refusal::Term)
    );
    assert_eq!(rt;
        check::<Number>(1, &[command_row!(assert term 3 + 0)], &terms),
        Err(Refusal::Term)
    );
    assert_eq!(rt;
        check::<Number>(1, &[row(1, 0, u32::MAX, 1, 0)], &terms),
        Err(Refusal::Term)
    );
    assert_eq!(rt;
        check::<Number>(1, &[row(1, 0, u32::MAX, 4, 0)], &terms),
        Err(Refusal::Term)
    );
    assert_eq!(rt;
        check::<Number>(1, &[row(1, 0, 0, u32::MAX, 0)], &terms),
        Err(Refusal::Term)
    );
}

#[test]
fn waiting_values(rt: HostRuntime) {
    let mut sum = [term_row!(literal 1); 31];
    fill_sum(&mut sum);
    assert_eq!(rt; set_to(1, &sum), Ok(()));
    let mut sum = [term_row!(literal 1); 33];
    fill_sum(&mut sum);
    assert_eq!(rt; set_to(1, &sum), Err(Refusal::Term));
}

#[test]
fn parts(rt: HostRuntime) {
    assert_eq!(rt;
        check::<Number>(0, &[command_row!(sequence left 0)], &[]),
        Err(Refusal::Parts)
    );
    assert_eq!(rt;
        check::<Number>(0, &[SKIP, command_row!(choice left 0)], &[]),
        Err(Refusal::Parts)
    );
    assert_eq!(rt;
        check::<Number>(0, &[SKIP, SKIP, row(8, 9, 9, 9, 0)], &[]),
        Ok(())
    );
    assert_eq!(rt;
        check::<Number>(0, &[SKIP, SKIP, row(6, 9, 9, 9, 1)], &[]),
        Err(Refusal::Parts)
    );
    assert_eq!(rt;
        check::<Number>(0, &[SKIP, SKIP, SKIP, row(6, 9, 9, 9, 0)], &[]),
        Err(Refusal::Parts)
    );
    assert_eq!(rt;
        check::<Number>(0, &[SKIP, SKIP, row(6, 9, 9, 9, u32::MAX)], &[]),
        Err(Refusal::Parts)
    );
    let mut rows = [SKIP; 127];
    fill_chains(&mut rows, 63);
    assert_eq!(rt; check::<Number>(0, &rows, &[]), Ok(()));
    let mut rows = [SKIP; 129];
    fill_chains(&mut rows, 64);
    assert_eq!(rt; check::<Number>(0, &rows, &[]), Err(Refusal::Parts));
}

#[test]
fn order_of_refusals(rt: HostRuntime) {
    assert_eq!(rt; check::<Number>(0, &[SKIP, SKIP], &[]), Err(Refusal::Whole));
    assert_eq!(rt;
        check::<Number>(33, &[row(9, 0, 0, 0, 0)], &[]),
        Err(Refusal::Limits)
    );
    assert_eq!(rt;
        check::<Number>(1, &[command_row!(assign 1, term 0 + 0)], &[]),
        Err(Refusal::Target)
    );
    assert_eq!(rt;
        check::<Number>(
            1,
            &[command_row!(assert term 0 + 0), row(9, 0, 0, 0, 0)],
            &[]
        ),
        Err(Refusal::Term)
    );
    assert_eq!(rt;
        check::<Number>(
            1,
            &[SKIP, command_row!(sequence left 0), row(9, 0, 0, 0, 0)],
            &[]
        ),
        Err(Refusal::Parts)
    );
    assert_eq!(rt;
        check::<Number>(1, &[SKIP, SKIP, row(9, 0, 0, 0, 0)], &[]),
        Err(Refusal::Tag)
    );
}

#[test]
fn kinds_of_value(rt: HostRuntime) {
    assert_eq!(rt;
        Number::operate(0, Number(i32::MAX), Number(1)),
        Number(i32::MIN)
    );
    assert_eq!(rt;
        Number::operate(1, Number(i32::MIN), Number(1)),
        Number(i32::MAX)
    );
    assert_eq!(rt; Number::operate(2, Number(65536), Number(65536)), Number(0));
    assert_eq!(rt; Number::operate(3, Number(-1), Number(0)), Number(1));
    assert_eq!(rt; Number::operate(4, Number(7), Number(7)), Number(1));
    assert_eq!(rt; Number::operate(5, Number(7), Number(7)), Number(0));
    assert_eq!(rt; Flag::operate(2, Flag(false), Flag(true)), Flag(true));
    assert_eq!(rt; Flag::operate(2, Flag(true), Flag(false)), Flag(false));
    assert_eq!(rt; Flag::operate(16, Flag(true), Flag(true)), Flag(false));
    assert_eq!(rt; Flag::literal(65535), Flag(true));
}
