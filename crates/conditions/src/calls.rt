// The two calls: forecast and make_condition.
ghost use Rattle.std.specs.Prelude.{◌≡◌};
ghost use Rattle.routine.specs.Decoding.{decode};
ghost use Rattle.formula.specs.Tables.{table_steps, SameTable};
ghost use Rattle.formula.specs.Evaluators.{evaluator_steps, SameValues};
ghost use Rattle.conditions.specs.Fixed.{ConditionFixed};
ghost use Rattle.conditions.specs.Calls.{room_answer, condition_answer, MakesCondition};

use crate::forms::condition_node;
use formula::stores::Store;
use kinds::numbered::Node;
use kinds::refusals::Refusal;
use passify::calls::{FormMeasures, MOST_NAMES, measure, passify};
use passive::rows::{PassiveRow, PassiveTermRow};
use routine::rows::{CommandRow, TermRow};

// A condition that was made: its node, the names of the passive form, how many rows of the two tables that takes, and by how much the
// count of the store rose.
#[derive(Clone, Copy, Debug, PartialEq, Eq)]
pub struct Condition {
    pub node: Node,
    pub names: u32,
    pub rows: u32,
    pub terms: u32,
    pub rise: u32,
}

// The measures, where there is room for them: enough names, rows in the work tables, and places.
fn find_room<S: Store>(
    store: &S,
    form: FormMeasures,
    row_room: usize,
    term_room: usize,
) -> Result<FormMeasures, Refusal>
    ensures { result ≡ room_answer S.meaning store.now row_room term_room form }
{
    if form.names > MOST_NAMES || form.names > store.width() {
        return Err(Refusal::Names);
    }
    if form.rows as usize > row_room || form.terms as usize > term_room {
        return Err(Refusal::WorkTable);
    }
    if form.nodes > store.capacity() - store.count() {
        return Err(Refusal::Places);
    }
    Ok(form)
}

// What the condition of a routine takes, where the store and work tables of these lengths have room for it.
pub fn forecast<S: Store>(
    store: &S,
    v: u32,
    commands: &[CommandRow],
    terms: &[TermRow],
    row_room: usize,
    term_room: usize,
) -> Result<FormMeasures, Refusal>
    ensures { result ≡ condition_answer S.meaning store.now row_room term_room v (decode v S.Value.kind.ops commands.now terms.now) }
{
    let form = measure::<S::Value>(v, commands, terms)?;
    find_room(store, form, row_room, term_room)
}

// Makes the condition of a routine in the store: a node that is true under exactly the covered assignments under which the passive form
// does not end wrong. The passive form stands at the front of the two tables afterwards, with the nodes of each row in it. A refusal
// leaves store and tables as they were.
pub fn make_condition<S: Store>(
    store: &mut S,
    v: u32,
    commands: &[CommandRow],
    terms: &[TermRow],
    rows: &mut [PassiveRow],
    out: &mut [PassiveTermRow],
) -> Result<Condition, Refusal>
    ensures made { MakesCondition S.Value.kind S.meaning S.steps v (decode v S.Value.kind.ops commands.now terms.now) store.old rows.old out.old result store.new rows.new out.new }
    ensures tables { ConditionFixed (SameTable {V = S.Value}) table_steps }
    ensures evaluators { ConditionFixed SameValues (evaluator_steps S.Value.kind) }
{
    forecast(store, v, commands, terms, rows.len(), out.len())?;
    // What the forecast accepts is not refused here.
    let form = passify::<S::Value>(v, commands, terms, rows, out)?;
    let before = store.count();
    let node = condition_node(
        store,
        &mut rows[0..form.rows as usize],
        &out[0..form.terms as usize],
    );
    Ok(Condition {
        node,
        names: form.names,
        rows: form.rows,
        terms: form.terms,
        rise: store.count() - before,
    })
}
