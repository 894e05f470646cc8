// The sixteen worked routines, filed in a register, with every figure and value compared with what the rules give.

#![tactic(auto)]

ghost use Rattle.std.specs.Prelude.{◌≡◌, ◌+◌, ◌%◌, ◌^◌, true, IfOk, Ok};

use anyhow::anyhow;
use formula::evaluators::Evaluator;
use formula::tables::{NodeRow, TableStore};
use kinds::numbered::{Name, Node};
use kinds::numbers::Number;
use kinds::refusals::Refusal;
use passive::rows::{PassiveRow, PassiveTag, PassiveTermRow};
use register::entries::Filing;
use register::registers::Register;
use routine::rows::{CommandRow, Joint, TermRow};
use routine::{command_row, term_row};
use shapes::{SKIP, fill_chains, fill_sum};
use worked::{
    Routine, eighth, eleventh, fifth, first, fourth, ninth, second, seventh, sixth, tenth, third,
    twelfth, worked_out,
};

// More names, rows, terms and places than any of the routines takes.
const WIDTH: u32 = 16;

const ROWS: usize = 1100;

const TERMS: usize = 64;

const PLACES: usize = 3000;

// What filing a routine as the first of a register answers, where its condition takes the places from 2 on.
fn filed(names: u32, rows: u32, terms: u32, nodes: u32) -> Result<Filing, Refusal>
    ensures { result ≡ Ok (record { entry = 0; node = record { 0 = (nodes + 1) % 2 ^ 32 }; names = names; rows = rows; terms = terms; rise = nodes }) }
{
    Ok(Filing {
        entry: 0,
        node: Node(nodes.wrapping_add(1)),
        names,
        rows,
        terms,
        rise: nodes,
    })
}

// Files rows as the first entry of a register over a table store with this many places.
fn file(
    rt: &HostRuntime,
    v: u32,
    commands: &[CommandRow],
    terms: &[TermRow],
    places: usize,
) -> anyhow::Result<Result<Filing, Refusal>> {
    let store: TableStore<Number> = TableStore::new(
        vec![in rt.alloc(); NodeRow::BLANK; places]?,
        WIDTH,
    );
    let mut register = Register::new(store, v);
    let mut passive_rows = vec![in rt.alloc(); PassiveRow::BLANK; ROWS]?;
    let mut passive_terms = vec![in rt.alloc(); PassiveTermRow::BLANK; TERMS]?;
    Ok(register.file(
        commands,
        terms,
        passive_rows.as_mut_slice(),
        passive_terms.as_mut_slice(),
    ))
}

// Whether filing answers what the rules give; where it does not, says what it answers.
fn same_filing(
    rt: &HostRuntime,
    found: Result<Filing, Refusal>,
    expected: Result<Filing, Refusal>,
) -> anyhow::Result<bool>
    ensures { IfOk result (λ b. (b ≡ true → found ≡ expected) × (found ≡ expected → b ≡ true)) }
{
    if found == expected {
        return Ok(true);
    }
    match found {
        Ok(filing) => println!(rt;
            "filed: {}, names {}, rows {}, terms {}, rise {}",
            filing.node, filing.names, filing.rows, filing.terms, filing.rise
        )?,
        Err(refusal) => println!(rt; "{refusal}")?,
    }
    Ok(false)
}

// Whether filing a worked routine answers what the rules give.
fn files(
    rt: &HostRuntime,
    routine: Routine,
    expected: Result<Filing, Refusal>,
) -> anyhow::Result<bool> {
    let found = file(rt, routine.v, routine.commands, routine.terms, PLACES)?;
    same_filing(rt, found, expected)
}

// The value of a routine's condition under an assignment of two names, worked out by an evaluator.
fn condition_value(
    rt: &HostRuntime,
    routine: Routine,
    assignment: [i32; 2],
) -> anyhow::Result<Result<Number, Refusal>> {
    let mut values = Vec::new(rt.alloc());
    for value in assignment {
        values.push(Number(value))?;
    }
    for _ in 0..64 {
        values.push(Number(0))?;
    }
    let store: Evaluator<Number> = Evaluator::new(values, 2);
    let mut register = Register::new(store, routine.v);
    let mut passive_rows = [PassiveRow::BLANK; 8];
    let mut passive_terms = [PassiveTermRow::BLANK; 16];
    let filed = register.file(
        routine.commands,
        routine.terms,
        &mut passive_rows,
        &mut passive_terms,
    );
    Ok(filed.and_then(|filing| register.store().value(filing.node)))
}

// Whether the condition is true, or false, under the assignment, as the rules give it; where it is not, says so.
fn holds(
    rt: &HostRuntime,
    routine: Routine,
    assignment: [i32; 2],
    expected: bool,
) -> anyhow::Result<bool> {
    let [n0, n1] = assignment;
    let value = condition_value(rt, routine, assignment)?;
    let same = value == Ok(Number(i32::from(expected)));
    if !same {
        println!(rt; "under ({n0}, {n1}) the condition is not {expected}")?;
    }
    Ok(same)
}

// C1 is true everywhere: tried where its variable is large, small and wraps, with the second name as assigned and otherwise.
fn first_holds(rt: &HostRuntime) -> anyhow::Result<bool> {
    let tried = [
        [1, 0],
        [5, 4],
        [i32::MAX, 2_147_483_646],
        [0, -1],
        [i32::MIN, i32::MAX],
        [3, -7],
    ];
    let mut same = true;
    for assignment in tried {
        same = holds(rt, first(), assignment, true)? && same;
    }
    Ok(same)
}

// The passive rows of C4 are raise, stop and a sequence of both.
fn fourth_rows(rt: &HostRuntime) -> anyhow::Result<bool> {
    let Routine { v, commands, terms } = fourth();
    let store: TableStore<Number> = TableStore::new(vec![in rt.alloc(); NodeRow::BLANK; 6]?, 0);
    let mut register = Register::new(store, v);
    let mut rows = [PassiveRow::BLANK; 3];
    let found = register.file(commands, terms, &mut rows, &mut []);
    let same = same_filing(rt, found, filed(0, 3, 0, 6))?;
    let [raise, stop, sequence] = rows;
    Ok(
        same && raise.tag == u32::from(PassiveTag::Raise)
            && stop.tag == u32::from(PassiveTag::Stop)
            && sequence.tag == u32::from(PassiveTag::Join(Joint::Sequence))
            && sequence.left == 0,
    )
}

// C13: 1,023 rows are filed, and with one more skip they are refused.
fn most_rows(rt: &HostRuntime) -> anyhow::Result<bool> {
    let mut commands = [SKIP; 1024];
    fill_chains(&mut commands[0..1023], 15);
    let most = file(rt, 0, &commands[0..1023], &[], PLACES)?;
    let same = same_filing(rt, most, filed(0, 1023, 0, 2556))?;
    let more = file(rt, 0, &commands, &[], PLACES)?;
    Ok(same_filing(rt, more, Err(Refusal::Limits))? && same)
}

// C14: a depth of 64 is filed, one of 65 refused.
fn most_depth(rt: &HostRuntime) -> anyhow::Result<bool> {
    let mut commands = [SKIP; 127];
    fill_chains(&mut commands, 63);
    let most = file(rt, 0, &commands, &[], PLACES)?;
    let same = same_filing(rt, most, filed(0, 127, 0, 316))?;
    let mut commands = [SKIP; 129];
    fill_chains(&mut commands, 64);
    let more = file(rt, 0, &commands, &[], PLACES)?;
    Ok(same_filing(rt, more, Err(Refusal::Parts))? && same)
}

// C15: a term with 16 values waiting is filed, one with 17 refused.
fn most_waiting(rt: &HostRuntime) -> anyhow::Result<bool> {
    let mut sum = [term_row!(literal 1); 31];
    fill_sum(&mut sum);
    let most = file(rt, 1, &[command_row!(assign 0, term 0 + 31)], &sum, PLACES)?;
    let same = same_filing(rt, most, filed(2, 1, 31, 34))?;
    let mut sum = [term_row!(literal 1); 33];
    fill_sum(&mut sum);
    let more = file(rt, 1, &[command_row!(assign 0, term 0 + 33)], &sum, PLACES)?;
    Ok(same_filing(rt, more, Err(Refusal::Term))? && same)
}

// C16: exactly the places that were measured suffice, and one fewer is refused.
fn exact_places(rt: &HostRuntime) -> anyhow::Result<bool> {
    let Routine { v, commands, terms } = first();
    let exact = file(rt, v, commands, terms, 25)?;
    let same = same_filing(rt, exact, filed(2, 5, 11, 25))?;
    let fewer = file(rt, v, commands, terms, 24)?;
    Ok(same_filing(rt, fewer, Err(Refusal::Places))? && same)
}

fn report(rt: &HostRuntime, number: u32, same: bool) -> anyhow::Result<bool>
    ensures { IfOk result (λ b. b ≡ same) }
{
    let answer = if same { "same" } else { "differs" };
    println!(rt; "C{number} {answer}")?;
    Ok(same)
}

// Compares everything that the rules give for the sixteen routines.
fn run(rt: &HostRuntime) -> anyhow::Result<()> {
    worked_out();
    let same = [
        report(
            rt,
            1,
            files(rt, first(), filed(2, 5, 11, 25))? && first_holds(rt)?,
        )?,
        report(
            rt,
            2,
            files(rt, second(), filed(2, 3, 8, 17))?
                && holds(rt, second(), [0, -1], false)?
                && holds(rt, second(), [0, 5], true)?
                && holds(rt, second(), [i32::MIN, i32::MAX], true)?,
        )?,
        report(
            rt,
            3,
            files(rt, third(), filed(0, 1, 0, 1))? && holds(rt, third(), [0, 0], true)?,
        )?,
        report(
            rt,
            4,
            fourth_rows(rt)? && holds(rt, fourth(), [0, 0], true)?,
        )?,
        report(rt, 5, files(rt, fifth(), filed(3, 7, 3, 23))?)?,
        report(
            rt,
            6,
            files(rt, sixth(), filed(0, 3, 1, 8))? && holds(rt, sixth(), [0, 0], false)?,
        )?,
        report(rt, 7, files(rt, seventh(), filed(0, 1, 0, 1))?)?,
        report(rt, 8, files(rt, eighth(), Err(Refusal::Term))?)?,
        report(rt, 9, files(rt, ninth(), Err(Refusal::Term))?)?,
        report(rt, 10, files(rt, tenth(), Err(Refusal::Target))?)?,
        report(rt, 11, files(rt, eleventh(), Err(Refusal::Whole))?)?,
        report(rt, 12, files(rt, twelfth(), Err(Refusal::Parts))?)?,
        report(rt, 13, most_rows(rt)?)?,
        report(rt, 14, most_depth(rt)?)?,
        report(rt, 15, most_waiting(rt)?)?,
        report(rt, 16, exact_places(rt)?)?,
    ];
    if same.contains(&false) {
        return Err(anyhow!("not all figures are the same"));
    }
    Ok(())
}

fn main(rt: HostRuntime) -> anyhow::Result<()> {
    run(&rt)
}
