// The two calls: measure and passify.
ghost use Rattle.std.specs.Prelude.{◌≡◌, ℕ, ◌&&◌, length, nat_le};
ghost use Rattle.routine.specs.Decoding.{decode};
ghost use Rattle.passive.specs.Stated.{JointsAsStated};
ghost use Rattle.passify.specs.Calls.{measure_answer, passify_answer, rows_after, terms_after, AgreesWithRuns};
ghost use Rattle.passify.specs.Checked.{Checked, FormMeasured};

use crate::maps::NameMap;
use crate::measuring::{Measured, measure_row};
use crate::passing::passify_row;
use crate::writing::Place;
use kinds::kind::Kind;
use kinds::refusals::Refusal;
use passive::rows::{PassiveRow, PassiveTermRow};
use routine::checks::check;
use routine::rows::{CommandRow, TermRow};

pub const MOST_NAMES: u32 = 4096;

// What a routine's passive form and its condition take.
#[derive(Clone, Copy, Debug, PartialEq, Eq)]
pub struct FormMeasures {
    pub names: u32,
    pub rows: u32,
    pub terms: u32,
    pub nodes: u32,
}

// The names of a passive form, and how many rows of the two tables it takes.
#[derive(Clone, Copy, Debug, PartialEq, Eq)]
pub struct FormLengths {
    pub names: u32,
    pub rows: u32,
    pub terms: u32,
}

// The passive form of rows that were checked, measured.
fn measure_checked(v: u32, commands: &[CommandRow]) -> Measured
    requires { Checked v commands.now }
    ensures { FormMeasured v commands.now result }
{
    measure_row(
        commands,
        commands.len() as u32 - 1,
        &Some(NameMap::first(v)),
        v,
    )
}

// What the passive form of a routine takes, and how many nodes its condition.
pub fn measure<K: Kind>(
    v: u32,
    commands: &[CommandRow],
    terms: &[TermRow],
) -> Result<FormMeasures, Refusal>
    ensures { result ≡ measure_answer v (decode v K.kind.ops commands.now terms.now) }
{
    check::<K>(v, commands, terms)?;
    let form = measure_checked(v, commands);
    Ok(FormMeasures {
        names: form.next,
        rows: form.rows,
        terms: form.terms,
        nodes: form.nodes + 1,
    })
}

fn tables_suffice(form: &Measured, rows: usize, terms: usize) -> bool
    ensures { result ≡ (nat_le form.now.rows rows && nat_le form.now.terms terms) }
{
    form.rows as usize <= rows && form.terms as usize <= terms
}

// Writes the passive form of a routine at the front of the two tables.
pub fn passify<K: Kind>(
    v: u32,
    commands: &[CommandRow],
    terms: &[TermRow],
    rows: &mut [PassiveRow],
    out: &mut [PassiveTermRow],
) -> Result<FormLengths, Refusal>
    ensures answer { result ≡ passify_answer v (decode v K.kind.ops commands.now terms.now) (length rows.old) (length out.old) }
    ensures rows { rows.new ≡ rows_after v (decode v K.kind.ops commands.now terms.now) result rows.old }
    ensures terms { out.new ≡ terms_after v (decode v K.kind.ops commands.now terms.now) result out.old }
    ensures rules { JointsAsStated }
    ensures agreement { AgreesWithRuns K.kind v (decode v K.kind.ops commands.now terms.now) }
{
    check::<K>(v, commands, terms)?;
    let form = measure_checked(v, commands);
    if form.next > MOST_NAMES {
        return Err(Refusal::Names);
    }
    if !tables_suffice(&form, rows.len(), out.len()) {
        return Err(Refusal::WorkTable);
    }
    let front = Place { row: 0, term: 0 };
    let _ = passify_row(
        commands,
        terms,
        commands.len() as u32 - 1,
        &Some(NameMap::first(v)),
        v,
        rows,
        out,
        front,
    );
    Ok(FormLengths {
        names: form.next,
        rows: form.rows,
        terms: form.terms,
    })
}
