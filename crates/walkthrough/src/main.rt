// The walkthrough: one routine taken through every layer, with what each layer says of it.

#![tactic(auto)]

ghost use Rattle.std.specs.Prelude.{◌≡◌, IfOk};
ghost use Rattle.routine.specs.Decoding.{decode, verdict};
ghost use Rattle.walkthrough.specs.Made.{MakesWithRows};

mod text;

use anyhow::anyhow;
use conditions::calls::{Condition, make_condition};
use formula::evaluators::Evaluator;
use formula::stores::Store;
use formula::tables::{NodeRow, TableStore};
use kinds::kind::Kind;
use kinds::numbers::Number;
use kinds::refusals::Refusal;
use passify::calls::{FormMeasures, measure, passify};
use passive::rows::{PassiveRow, PassiveTermRow};
use register::entries::{Answer, Request};
use register::registers::Register;
use register::registers::replays::replay;
use routine::checks::check;
use routine::rows::{CommandRow, TermRow};
use samples::{Sample, make_sample};
use std::fmt;

// A routine over v0 and v1, with what its passive form takes.
#[derive(Clone, Copy)]
struct Routine<'a> {
    commands: &'a [CommandRow],
    terms: &'a [TermRow],
    form: FormMeasures,
}

fn refused(refusal: Refusal) -> anyhow::Error {
    anyhow!("the routine was {refusal}")
}

// Prints what was asked and what was answered.
fn report<W: fmt::Display + Drop, A: fmt::Display + Drop>(
    rt: &HostRuntime,
    what: W,
    answer: Result<A, Refusal>,
) -> anyhow::Result<()> {
    match answer {
        Ok(answer) => println!(rt; "{what}: {answer}")?,
        Err(refusal) => println!(rt; "{what}: {refusal}")?,
    }
    Ok(())
}

fn check_numbers(v: u32, commands: &[CommandRow], terms: &[TermRow]) -> Result<(), Refusal>
    ensures { result ≡ verdict (decode v 5 commands.now terms.now) }
{
    check::<Number>(v, commands, terms)
}

// Prints what the check says.
fn report_check(
    rt: &HostRuntime,
    what: &str,
    v: u32,
    commands: &[CommandRow],
    terms: &[TermRow],
) -> anyhow::Result<()> {
    report(
        rt,
        what,
        check_numbers(v, commands, terms).map(|()| "accepted"),
    )
}

// One damaged copy for each refusal of the check.
fn show_damaged(rt: &HostRuntime) -> anyhow::Result<()> {
    let Sample { commands, terms } = make_sample();
    report_check(rt, "33 variables", 33, &commands, &terms)?;
    let mut damaged = commands;
    damaged[3].tag = 9;
    report_check(rt, "row 3 with tag 9", 2, &damaged, &terms)?;
    damaged = commands;
    damaged[1].target = 2;
    report_check(rt, "row 1 assigning to v2", 2, &damaged, &terms)?;
    damaged = commands;
    damaged[13].count = 4;
    report_check(rt, "row 13 with its term cut short", 2, &damaged, &terms)?;
    damaged = commands;
    damaged[14].left = 11;
    report_check(
        rt,
        "row 14 with its left part at row 11",
        2,
        &damaged,
        &terms,
    )?;
    report_check(rt, "the last row left out", 2, &commands[0..14], &terms)
}

// The passive form, in tables of exactly the length that was measured.
fn show_passive_form(rt: &HostRuntime, routine: Routine<'_>) -> anyhow::Result<()> {
    let FormMeasures {
        names,
        rows,
        terms,
        nodes,
    } = routine.form;
    println!(rt;
        "It takes {names} names, {rows} rows, {terms} term rows; its condition will take {nodes} nodes."
    )?;
    let mut passive_rows = vec![in rt.alloc(); PassiveRow::BLANK; rows as usize]?;
    let mut passive_terms = vec![in rt.alloc(); PassiveTermRow::BLANK; terms as usize]?;
    passify::<Number>(
        2,
        routine.commands,
        routine.terms,
        passive_rows.as_mut_slice(),
        passive_terms.as_mut_slice(),
    )
    .map_err(refused)?;
    text::print_passive_form(rt, passive_rows.as_slice(), passive_terms.as_slice())
}

// The condition in any store, with work tables of these lengths; the rows of its passive form, with their nodes, are answered too.
fn condition_in<S: Store>(
    rt: &HostRuntime,
    store: &mut S,
    routine: Routine<'_>,
) -> anyhow::Result<(Condition, Vec<PassiveRow>)>
    ensures { IfOk result (λ made. MakesWithRows S.Value.kind S.meaning S.steps 2 (decode 2 S.Value.kind.ops routine.entry.commands.now routine.entry.terms.now) store.old made.0 store.new made.1.items) }
{
    let mut rows = vec![in rt.alloc(); PassiveRow::BLANK; routine.form.rows as usize]?;
    let mut out = vec![in rt.alloc(); PassiveTermRow::BLANK; routine.form.terms as usize]?;
    let made = make_condition(
        store,
        2,
        routine.commands,
        routine.terms,
        rows.as_mut_slice(),
        out.as_mut_slice(),
    )
    .map_err(refused)?;
    Ok((made, rows))
}

// The condition in a table store, with exactly the nodes that were measured.
fn show_nodes(rt: &HostRuntime, routine: Routine<'_>) -> anyhow::Result<()> {
    let nodes = vec![in rt.alloc(); NodeRow::BLANK; routine.form.nodes as usize]?;
    let mut store: TableStore<Number> = TableStore::new(nodes, routine.form.names);
    let (Condition { node, rise, .. }, rows) = condition_in(rt, &mut store, routine)?;
    println!(rt; "It made {rise} nodes, from 2 on; the condition is {node}.")?;
    println!(rt; "N, X and W of a row say whether it may end normally, raised or wrong.")?;
    text::print_row_nodes(rt, &store, rows.as_slice())?;
    text::print_node(rt, &store, rows.as_slice(), "The condition", node)
}

// Whether the condition is true under one assignment.
fn truth_under(rt: &HostRuntime, routine: Routine<'_>, assignment: &[i32]) -> anyhow::Result<bool> {
    let mut values: Vec<Number> = assignment
        .iter()
        .map(|value| Number(*value))
        .collect(rt.alloc())?;
    for _ in 0..routine.form.nodes {
        values.push(Number(0))?;
    }
    let mut store: Evaluator<Number> = Evaluator::new(values, routine.form.names);
    let (made, _) = condition_in(rt, &mut store, routine)?;
    let value = store.value(made.node).map_err(refused)?;
    Ok(value.truth())
}

fn show_truth(rt: &HostRuntime, routine: Routine<'_>, assignment: &[i32]) -> anyhow::Result<()> {
    print!(rt; "Under ")?;
    for (i, value) in assignment.iter().enumerate() {
        print!(rt; "n{i} = {value}, ")?;
    }
    let said = if truth_under(rt, routine, assignment)? {
        "true: no run that starts with v0 = n0 and v1 = n1 ends wrong along this assignment."
    } else {
        "false: a run that starts with v0 = n0 and v1 = n1 ends wrong."
    };
    println!(rt; "the condition is {said}")?;
    Ok(())
}

fn show_condition(rt: &HostRuntime, routine: Routine<'_>) -> anyhow::Result<()> {
    show_nodes(rt, routine)?;
    println!(rt; "\nThe same condition worked out under two assignments:")?;
    show_truth(rt, routine, &[-5, 3, 5, 5, 2, 2])?;
    let least = i32::MIN;
    show_truth(rt, routine, &[least, 3, least, least, 2, 2])?;
    println!(rt;
        "Minus the least number is no number of 32 bits: 0 - n0 wraps to n0 again, and the assertion 0 < n2 fails."
    )?;
    Ok(())
}

// What the entry that this request made says, if it made one that stands.
fn show_entry(
    rt: &HostRuntime,
    register: &Register<TableStore<Number>>,
    request: Request<'_>,
    answer: Result<Answer, Refusal>,
) -> anyhow::Result<()> {
    let entry = match answer {
        Ok(Answer::Filed(filing)) => filing.entry,
        Ok(Answer::Joined(joining)) => joining.entry,
        _ => return Ok(()),
    };
    if let Ok(reading) = register.read(entry) {
        let (node, routines) = (reading.node, text::Routines(request));
        println!(rt; "entry {entry}: {node}, true where no run of {routines} ends wrong")?;
    }
    Ok(())
}

// Replays the requests over a new table store, then shows the answers and the entries that stand.
fn show_replay(rt: &HostRuntime, requests: &[Request<'_>]) -> anyhow::Result<()> {
    let nodes = vec![in rt.alloc(); NodeRow::BLANK; 200]?;
    let store: TableStore<Number> = TableStore::new(nodes, 6);
    let mut rows = vec![in rt.alloc(); PassiveRow::BLANK; 23]?;
    let mut terms = vec![in rt.alloc(); PassiveTermRow::BLANK; 34]?;
    let mut answers = vec![in rt.alloc(); Ok(Answer::Marked); requests.len()]?;
    let register = replay(
        store,
        2,
        requests,
        rows.as_mut_slice(),
        terms.as_mut_slice(),
        answers.as_mut_slice(),
    );
    for (request, answer) in requests.iter().zip(answers.iter()) {
        report(rt, *request, *answer)?;
    }
    println!(rt;
        "\nWhat the entries that stand say of a start (true means: under all assignments that begin with it):"
    )?;
    for (request, answer) in requests.iter().zip(answers.iter()) {
        show_entry(rt, &register, *request, *answer)?;
    }
    Ok(())
}

// Asks a register to file a routine and a part of it that is a routine too, and then more of these two entries.
fn show_requests<'a>(
    rt: &HostRuntime,
    whole: &'a [CommandRow],
    part: &'a [CommandRow],
    terms: &'a [TermRow],
) -> anyhow::Result<()> {
    let requests = [
        Request::File(whole, terms),
        Request::File(part, terms),
        Request::Join(0, 1),
        Request::Join(2, 0),
        Request::Strike(1),
        Request::Read(1),
        Request::Join(1, 2),
        Request::Read(2),
        Request::Read(9),
    ];
    show_replay(rt, &requests)
}

// The first part of the sample is its rows 0 to 6.
fn show_register(rt: &HostRuntime) -> anyhow::Result<()> {
    let Sample { commands, terms } = make_sample();
    show_requests(rt, &commands, &commands[0..7], &terms)
}

fn show_routine(
    rt: &HostRuntime,
    commands: &[CommandRow],
    terms: &[TermRow],
) -> anyhow::Result<()> {
    let rows = commands.len();
    println!(rt; "The routine: {rows} command rows over v0, a number, and v1, a counter.")?;
    text::print_routine(rt, commands, terms)?;
    report_check(rt, "The check", 2, commands, terms)
}

fn run(rt: &HostRuntime) -> anyhow::Result<()> {
    let Sample { commands, terms } = make_sample();
    show_routine(rt, &commands, &terms)?;
    println!(rt; "\nDamaged copies of it:")?;
    show_damaged(rt)?;
    println!(rt;
        "\nIts passive form, with a name n0, n1, .. for each value that a variable takes:"
    )?;
    let routine = Routine {
        commands: &commands,
        terms: &terms,
        form: measure::<Number>(2, &commands, &terms).map_err(refused)?,
    };
    show_passive_form(rt, routine)?;
    println!(rt; "\nIts condition, in a table store; node 0 is no and node 1 is yes:")?;
    show_condition(rt, routine)?;
    println!(rt;
        "\nA register over a new table store. Filed are the routine and, as a routine of its own, its first part, rows 0 to 6:"
    )?;
    show_register(rt)?;
    println!(rt;
        "\nDone: one routine checked and shown, six damaged copies refused, one passive form measured and written, one condition made and worked out twice, nine requests answered by a register."
    )?;
    Ok(())
}

fn main(rt: HostRuntime) -> anyhow::Result<()> {
    run(&rt)
}
