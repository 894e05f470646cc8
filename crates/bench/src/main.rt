// What routines that grow take: `bench counts` prints counts, the same on every run, and `bench time` times the calls as well.

#![tactic(auto)]

mod routines;
mod timing;

use crate::routines::{Family, Size, TERMS, commands, families};
use crate::timing::{Bench, Call, tenths};
use anyhow::anyhow;
use kinds::numbers::Number;
use kinds::refusals::Refusal;
use passify::calls::{FormMeasures, measure};
use std::{env, io};

const ALL_CALLS: [Call; 5] = [
    Call::Check,
    Call::Measure,
    Call::Passify,
    Call::FileInTable,
    Call::FileInEvaluator,
];

// Prints what the routines of a family are, and what the columns are.
fn print_head(rt: &HostRuntime, family: Family) -> io::Result<()> {
    let Family {
        joint,
        variables,
        sizes: [Size { shape, .. }, ..],
    } = family;
    println!(rt;
        "assignments joined by {joint} in {shape}, variables {variables}: rows, depth, names, passive rows, nodes"
    )
}

fn print_tenths(rt: &HostRuntime, tenths: u64) -> io::Result<()> {
    print!(rt; "{:>8}.{}", tenths / 10, tenths % 10)
}

// Prints what a routine takes, or why it is refused.
fn print_counts(
    rt: &HostRuntime,
    size: Size,
    answer: Result<FormMeasures, Refusal>,
) -> io::Result<()> {
    let Size { rows, depth, .. } = size;
    match answer {
        Ok(form) => print!(rt;
            "{rows:>6}{depth:>6}{:>7}{:>9}{:>9}",
            form.names, form.rows, form.nodes
        ),
        Err(refusal) => print!(rt; "{rows:>6}{depth:>6} {refusal}"),
    }
}

// Makes the calls, and prints what each takes.
fn print_times(rt: &HostRuntime, bench: &mut Bench, calls: &[Call]) -> anyhow::Result<Vec<u64>> {
    let mut times = Vec::new(rt.alloc());
    for call in calls {
        let time = bench.time(rt, *call)?;
        print_tenths(rt, time)?;
        times.push(time)?;
    }
    Ok(times)
}

// Prints how many times the first times the last are.
fn print_growth(rt: &HostRuntime, first: &[u64], last: &[u64]) -> io::Result<()> {
    print!(rt; "{:>37}", "grew, times")?;
    for (first, last) in first.iter().zip(last) {
        print_tenths(rt, tenths(*last, *first))?;
    }
    println!(rt; "")
}

// Prints what a routine takes, and the times of the calls.
fn print_routine(
    rt: &HostRuntime,
    family: Family,
    size: Size,
    calls: &[Call],
) -> anyhow::Result<Vec<u64>> {
    let rows = commands(rt.alloc(), family, size)?;
    let answer = measure::<Number>(family.variables, rows.as_slice(), &TERMS);
    print_counts(rt, size, answer)?;
    let times = match answer {
        Ok(form) => {
            let mut bench = Bench::new(rt.alloc(), family.variables, rows, form)?;
            print_times(rt, &mut bench, calls)?
        }
        Err(_) => Vec::new(rt.alloc()),
    };
    println!(rt; "")?;
    Ok(times)
}

fn print_family(rt: &HostRuntime, family: Family, calls: &[Call]) -> anyhow::Result<()> {
    print_head(rt, family)?;
    let [smallest, small, large, largest] = family.sizes;
    let first = print_routine(rt, family, smallest, calls)?;
    let _ = print_routine(rt, family, small, calls)?;
    let _ = print_routine(rt, family, large, calls)?;
    let last = print_routine(rt, family, largest, calls)?;
    if calls.is_empty() {
        return Ok(());
    }
    print_growth(rt, first.as_slice(), last.as_slice())?;
    Ok(())
}

fn print_all(rt: &HostRuntime, calls: &[Call]) -> anyhow::Result<()> {
    for family in families() {
        print_family(rt, family, calls)?;
    }
    Ok(())
}

fn run(rt: &HostRuntime) -> anyhow::Result<()> {
    let Some(word) = env::args(rt)?.nth(1) else {
        return Err(anyhow!("say counts or time"));
    };
    match word.as_str() {
        "counts" => print_all(rt, &[]),
        "time" => {
            println!(rt;
                "and nanoseconds: check and measure a row, passify a passive row, filing in a table and in an evaluator a node"
            )?;
            print_all(rt, &ALL_CALLS)
        }
        _ => Err(anyhow!("say counts or time")),
    }
}

fn main(rt: HostRuntime) -> anyhow::Result<()> {
    run(&rt)
}
