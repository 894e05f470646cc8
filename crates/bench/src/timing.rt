// Timing the calls: the best of several runs, each long enough for the clock.
ghost use Rattle.std.specs.Prelude.{◌≡◌, ◌-◌, ◌*◌, ◌/◌, ◌^◌, min, max, IfOk, vec_len};
ghost use Rattle.bench.specs.Calls.{units, turns};

use crate::routines::TERMS;
use anyhow::anyhow;
use formula::evaluators::Evaluator;
use formula::stores::Store;
use formula::tables::{NodeRow, TableStore};
use kinds::numbers::Number;
use passify::calls::{FormMeasures, measure, passify};
use passive::rows::{PassiveRow, PassiveTermRow};
use register::registers::Register;
use routine::checks::check;
use routine::rows::CommandRow;
use std::alloc::{AllocError, Global};
use std::time::Instant;

const RUNS: u32 = 7;

// How many rows the calls of a run go over, or how many nodes its filings make, about.
const UNITS: u32 = 65_536;

// A register has room for so many filings.
const MOST_FILINGS: u32 = 64;

#[derive(Clone, Copy)]
pub enum Call {
    Check,
    Measure,
    Passify,
    FileInTable,
    FileInEvaluator,
}

// A routine to time, what its passive form takes, and tables for that.
#[derive(Drop)]
pub struct Bench {
    pub variables: u32,
    pub commands: Vec<CommandRow>,
    pub form: FormMeasures,
    pub rows: Vec<PassiveRow>,
    pub terms: Vec<PassiveTermRow>,
}

// A quotient in tenths.
pub fn tenths(whole: u64, part: u64) -> u64
    ensures { result ≡ min (whole * 10) (2 ^ 64 - 1) / max part 1 }
{
    whole.saturating_mul(10) / part.max(1)
}

impl Call {
    // What a call goes over: the rows of a routine, those of its passive form, or the nodes of its condition.
    fn units(self, rows: u32, form: FormMeasures) -> u32
        ensures { result ≡ units self rows form }
    {
        match self {
            Call::Check | Call::Measure => rows,
            Call::Passify => form.rows,
            Call::FileInTable | Call::FileInEvaluator => form.nodes,
        }
    }

    // How often a call over so many units is made in a run.
    fn turns(self, units: u32) -> u32
        ensures { result ≡ turns self units }
    {
        let turns = (UNITS / units.max(1)).max(1);
        match self {
            Call::Check | Call::Measure | Call::Passify => turns,
            Call::FileInTable | Call::FileInEvaluator => turns.min(MOST_FILINGS),
        }
    }
}

fn nanos_since(rt: &HostRuntime, start: Instant) -> anyhow::Result<u64> {
    Ok(u64::try_from(start.elapsed(rt)?.as_nanos()).unwrap_or(u64::MAX))
}

impl Bench {
    pub fn new(
        heap: Global,
        variables: u32,
        commands: Vec<CommandRow>,
        form: FormMeasures,
    ) -> Result<Bench, AllocError>
        ensures { IfOk result (λ b. (b.variables ≡ variables) × (b.commands ≡ commands) × (b.form ≡ form) × (vec_len b.rows ≡ form.rows) × (vec_len b.terms ≡ form.terms)) }
    {
        Ok(Bench {
            variables,
            commands,
            form,
            rows: vec![in heap; PassiveRow::BLANK; form.rows as usize]?,
            terms: vec![in heap; PassiveTermRow::BLANK; form.terms as usize]?,
        })
    }

    // The time of a run of a call on the routine alone, which tells whether it is accepted. Each begins with a write to a field that is not
    // read, or the compiler might make one call of them all.
    fn time_calls<F: Fn(&mut Bench) -> bool>(
        &mut self,
        rt: &HostRuntime,
        turns: u32,
        accepts: F,
    ) -> anyhow::Result<u64>
    where
        requires { F.IsAlwaysCallable accepts }
    {
        let start = Instant::now(rt)?;
        for turn in 0..turns {
            if let Some(row) = self.commands.get_mut(0) {
                row.left = turn;
            }
            if !accepts(self) {
                return Err(anyhow!("a call was refused"));
            }
        }
        nanos_since(rt, start)
    }

    // The time of so many filings in a new register.
    fn time_filings<S: Store + Drop>(
        &mut self,
        rt: &HostRuntime,
        store: S,
        filings: u32,
    ) -> anyhow::Result<u64> {
        let mut register = Register::new(store, self.variables);
        let start = Instant::now(rt)?;
        for _ in 0..filings {
            let filed = register.file(
                self.commands.as_slice(),
                &TERMS,
                self.rows.as_mut_slice(),
                self.terms.as_mut_slice(),
            );
            if filed.is_err() {
                return Err(anyhow!("a routine was not filed"));
            }
        }
        nanos_since(rt, start)
    }

    // The time of a run of so many calls; a filing's store has room for all.
    fn time_run(&mut self, rt: &HostRuntime, call: Call, turns: u32) -> anyhow::Result<u64> {
        let width = self.form.names;
        let places = self.form.nodes.saturating_mul(turns) as usize;
        match call {
            Call::Check => self.time_calls(rt, turns, |bench| {
                check::<Number>(bench.variables, bench.commands.as_slice(), &TERMS).is_ok()
            }),
            Call::Measure => self.time_calls(rt, turns, |bench| {
                measure::<Number>(bench.variables, bench.commands.as_slice(), &TERMS).is_ok()
            }),
            Call::Passify => self.time_calls(rt, turns, |bench| {
                passify::<Number>(
                    bench.variables,
                    bench.commands.as_slice(),
                    &TERMS,
                    bench.rows.as_mut_slice(),
                    bench.terms.as_mut_slice(),
                )
                .is_ok()
            }),
            Call::FileInTable => {
                let rows = vec![in rt.alloc(); NodeRow::BLANK; places]?;
                let store: TableStore<Number> = TableStore::new(rows, width);
                self.time_filings(rt, store, turns)
            }
            Call::FileInEvaluator => {
                let count = places.saturating_add(width as usize);
                let values = vec![in rt.alloc(); Number(1); count]?;
                let store: Evaluator<Number> = Evaluator::new(values, width);
                self.time_filings(rt, store, turns)
            }
        }
    }

    // What a call takes for each row, passive row or node, in tenths of a nanosecond.
    pub fn time(&mut self, rt: &HostRuntime, call: Call) -> anyhow::Result<u64> {
        let rows = u32::try_from(self.commands.len()).unwrap_or(u32::MAX);
        let units = call.units(rows, self.form);
        let turns = call.turns(units);
        let mut best = u64::MAX;
        for _ in 0..RUNS {
            best = best.min(self.time_run(rt, call, turns)?);
        }
        Ok(tenths(best, units as u64 * turns as u64))
    }
}
