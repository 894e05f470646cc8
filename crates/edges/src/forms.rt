// Passive forms against tables worked out by hand, and measure and passify at their limits.
ghost use Rattle.std.specs.Prelude.{◌≡◌, ◌-◌, ◌^◌, ◌<◌, [], ◌∷◌, is_ok, length};
ghost use Rattle.passive.specs.Layout.{passive_row, joint_row, plain_row};

use crate::rows::row;
use kinds::numbered::{Name, Node};
use kinds::numbers::Number;
use kinds::refusals::Refusal;
use passify::calls::{FormLengths, FormMeasures, measure, passify};
use passive::rows::{PassiveRow, PassiveTermRow};
use routine::rows::{CommandRow, TermRow};
use routine::{command_row, term_row};
use std::alloc::{AllocError, Global};
use std::test::Fail;

// Expected rows have numbers for tags: passify makes its rows by what PassiveRow offers, and would be compared with itself by that.
fn passive(tag: u32, f: u16, from: u32, count: u32, left: u32) -> PassiveRow
    ensures { result ≡ passive_row tag (record { 0 = f }) from count left }
{
    PassiveRow {
        tag,
        f: Name(f),
        from,
        count,
        left,
        ..PassiveRow::BLANK
    }
}

// let f be the one term row `from`
fn let_row(f: u16, from: u32) -> PassiveRow
    ensures { result ≡ passive_row 9 (record { 0 = f }) from 1 0 }
{
    passive(9, f, from, 1, 0)
}

// two parts joined, the left of which ends at row `left`
fn joined(tag: u32, left: u32) -> PassiveRow
    ensures { result ≡ joint_row tag left }
{
    passive(tag, 0, 0, 0, left)
}

// a row that is its tag alone
fn plain(tag: u32) -> PassiveRow
    ensures { result ≡ plain_row tag }
{
    passive(tag, 0, 0, 0, 0)
}

fn literal(number: u16) -> PassiveTermRow
    ensures { result ≡ record { tag = 1; number = number } }
{
    PassiveTermRow { tag: 1, number }
}

fn name(number: u16) -> PassiveTermRow
    ensures { result ≡ record { tag = 2; number = number } }
{
    PassiveTermRow { tag: 2, number }
}

// What stands in a table before a call.
const OLD: PassiveRow = PassiveRow {
    tag: 77,
    f: Name(77),
    from: 77,
    count: 77,
    left: 77,
    n: Node(77),
    x: Node(77),
    w: Node(77),
};

const OLD_TERM: PassiveTermRow = PassiveTermRow {
    tag: 77,
    number: 77,
};

// What a helper of the tests asks for.
fn check(holds: bool) -> Result<(), Fail>
    ensures { is_ok result ≡ holds }
{
    if holds {
        Ok(())
    } else {
        Err(Fail::new("not as worked out by hand"))
    }
}

// The passive form, in tables two rows longer than it, is these rows; the two rows behind are as before.
fn same_form(
    heap: Global,
    v: u32,
    commands: &[CommandRow],
    terms: &[TermRow],
    rows: &[PassiveRow],
    passive_terms: &[PassiveTermRow],
) -> Result<(), Fail> {
    let mut found = vec![in heap; OLD; rows.len().saturating_add(2)]?;
    let mut found_terms = vec![in heap; OLD_TERM; passive_terms.len().saturating_add(2)]?;
    let answer = passify::<Number>(
        v,
        commands,
        terms,
        found.as_mut_slice(),
        found_terms.as_mut_slice(),
    );
    check(answer.is_ok())?;
    for (i, got) in found.iter().enumerate() {
        check(*got == *rows.get(i).unwrap_or(&OLD))?;
    }
    for (i, got) in found_terms.iter().enumerate() {
        check(*got == *passive_terms.get(i).unwrap_or(&OLD_TERM))?;
    }
    Ok(())
}

fn set_or_skip() -> [CommandRow; 3]
    ensures { result ≡ record { tag = 3; target = 0; from = 0; count = 1; left = 9 } ∷ record { tag = 4; target = 9; from = 9; count = 9; left = 9 } ∷ record { tag = 7; target = 9; from = 9; count = 9; left = 0 } ∷ [] }
{
    [row(3, 0, 0, 1, 9), row(4, 9, 9, 9, 9), row(7, 9, 9, 9, 0)]
}

// set v0 to 1, or skip: the part that does not set renames too
#[test]
fn one_part_sets(rt: HostRuntime) -> Result<(), Fail> {
    let rows = [
        let_row(1, 0),
        let_row(2, 1),
        joined(6, 0),
        plain(4),
        let_row(2, 2),
        joined(6, 3),
        joined(7, 2),
    ];
    same_form(
        rt.alloc(),
        1,
        &set_or_skip(),
        &[term_row!(literal 1)],
        &rows,
        &[literal(1), name(1), name(0)],
    )
}

// (set v0 to 1, or raise) catch (set v0 to 2): the handler starts from v0's first name
#[test]
fn handler_sets(rt: HostRuntime) -> Result<(), Fail> {
    let commands = [
        command_row!(assign 0, term 0 + 1),
        command_row!(raise),
        command_row!(choice left 0),
        command_row!(assign 0, term 1 + 1),
        command_row!(catch left 2),
    ];
    let rows = [
        let_row(1, 0),
        plain(5),
        joined(7, 0),
        let_row(3, 1),
        joined(6, 2),
        let_row(2, 2),
        let_row(3, 3),
        joined(6, 5),
        joined(8, 4),
    ];
    let terms = [term_row!(literal 1), term_row!(literal 2)];
    same_form(
        rt.alloc(),
        1,
        &commands,
        &terms,
        &rows,
        &[literal(1), name(1), literal(2), name(2)],
    )
}

// two parts that each set v0 and then skip or raise: both ends are merged, the normal one first
#[test]
fn two_merges(rt: HostRuntime) -> Result<(), Fail> {
    let skip = command_row!(skip);
    let raise = command_row!(raise);
    let commands = [
        command_row!(assign 0, term 0 + 1),
        skip,
        raise,
        command_row!(choice left 1),
        command_row!(sequence left 0),
        command_row!(assign 0, term 1 + 1),
        skip,
        raise,
        command_row!(choice left 6),
        command_row!(sequence left 5),
        command_row!(choice left 4),
    ];
    let rows = [
        let_row(1, 0),
        plain(4),
        plain(5),
        joined(7, 1),
        joined(6, 0),
        let_row(3, 1),
        joined(6, 4),
        let_row(4, 2),
        plain(5),
        joined(6, 7),
        joined(8, 6),
        let_row(2, 3),
        plain(4),
        plain(5),
        joined(7, 12),
        joined(6, 11),
        let_row(3, 4),
        joined(6, 15),
        let_row(4, 5),
        plain(5),
        joined(6, 18),
        joined(8, 17),
        joined(7, 10),
    ];
    let passive_terms = [literal(1), name(1), name(1), literal(2), name(2), name(2)];
    same_form(
        rt.alloc(),
        1,
        &commands,
        &[term_row!(literal 1), term_row!(literal 2)],
        &rows,
        &passive_terms,
    )
}

// raise, and then what control does not come to
#[test]
fn stops(rt: HostRuntime) -> Result<(), Fail> {
    let commands = [
        command_row!(raise),
        command_row!(assert term 0 + 1),
        command_row!(sequence left 0),
    ];
    same_form(
        rt.alloc(),
        0,
        &commands,
        &[term_row!(literal 0)],
        &[plain(5), plain(10), joined(6, 0)],
        &[],
    )
}

#[test]
fn measures(rt: HostRuntime) {
    let answer = measure::<Number>(1, &set_or_skip(), &[term_row!(literal 1)]);
    assert_eq!(rt;
        answer,
        Ok(FormMeasures {
            names: 3,
            rows: 7,
            terms: 3,
            nodes: 23,
        })
    );
    assert_eq!(rt;
        measure::<Number>(0, &set_or_skip(), &[term_row!(literal 1)]),
        Err(Refusal::Target)
    );
}

// the sample in tables of these lengths
fn in_tables(rows: usize, terms: usize) -> Result<Result<FormLengths, Refusal>, Fail> {
    let mut found = [OLD; 7];
    let mut found_terms = [OLD_TERM; 3];
    check(rows <= 7 && terms <= 3)?;
    let answer = passify::<Number>(
        1,
        &set_or_skip(),
        &[term_row!(literal 1)],
        &mut found[0..rows],
        &mut found_terms[0..terms],
    );
    if answer.is_err() {
        check(
            found[0] == OLD
                && found[5] == OLD
                && found_terms[0] == OLD_TERM
                && found_terms[1] == OLD_TERM,
        )?;
    }
    Ok(answer)
}

#[test]
fn tables_just_long_enough(rt: HostRuntime) -> Result<(), Fail> {
    assert_eq!(rt;
        in_tables(7, 3)?,
        Ok(FormLengths {
            names: 3,
            rows: 7,
            terms: 3,
        })
    );
    assert_eq!(rt; in_tables(6, 3)?, Err(Refusal::WorkTable));
    assert_eq!(rt; in_tables(7, 2)?, Err(Refusal::WorkTable));
    Ok(())
}

// The last row: where the part ends that was written last.
fn last_row(rows: &[CommandRow]) -> u32
    ensures { length rows.now < 2 ^ 32 → result ≡ length rows.now - 1 }
{
    u32::try_from(rows.len()).unwrap_or(0).saturating_sub(1)
}

// a chain of sets of v0 to v31, in `levels` choices with skip; such blocks in sequence
fn blocks(heap: Global, levels: &[u32]) -> Result<Vec<CommandRow>, AllocError> {
    let mut rows = Vec::new(heap);
    for (i, level) in levels.iter().enumerate() {
        let before = last_row(rows.as_slice());
        for x in 0..32 {
            let left = last_row(rows.as_slice());
            rows.push(command_row!(assign x, term 0 + 1))?;
            if x > 0 {
                rows.push(command_row!(sequence left left))?;
            }
        }
        for _ in 0..*level {
            let left = last_row(rows.as_slice());
            rows.push(command_row!(skip))?;
            rows.push(command_row!(choice left left))?;
        }
        if i > 0 {
            rows.push(command_row!(sequence left before))?;
        }
    }
    Ok(rows)
}

// 32 names, then in each block 32 for the sets and 32 for each choice: 4,096 in all; then one set more
#[test]
fn most_names(rt: HostRuntime) -> Result<(), Fail> {
    let terms = [term_row!(literal 1)];
    let mut rows = blocks(rt.alloc(), &[25, 25, 24, 24, 24])?;
    match measure::<Number>(32, rows.as_slice(), &terms) {
        Ok(form) => assert_eq!(rt; form.names, 4096),
        Err(_) => return Err(Fail::new("refused")),
    }
    assert_eq!(rt;
        passify::<Number>(32, rows.as_slice(), &terms, &mut [], &mut []),
        Err(Refusal::WorkTable)
    );
    let last = last_row(rows.as_slice());
    rows.push(command_row!(assign 0, term 0 + 1))?;
    rows.push(command_row!(sequence left last))?;
    assert_eq!(rt;
        passify::<Number>(32, rows.as_slice(), &terms, &mut [], &mut []),
        Err(Refusal::Names)
    );
    Ok(())
}
