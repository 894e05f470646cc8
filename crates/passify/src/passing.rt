// Writing the passive form of a command.
ghost use Rattle.std.specs.Prelude.{◌≡◌, ◌+◌, ◌^◌, ◌<◌, ◌≤◌, List, [], ◌∷◌, map, length, Ok};
ghost use Rattle.routine.specs.Rows.{tag_of, item};
ghost use Rattle.routine.specs.declared.rows.Tag.TheVariants.{Assign};
ghost use Rattle.passive.specs.Passive.{renamed, rename, passify_single};
ghost use Rattle.passive.specs.Rows.{term_row as row_of_item};
ghost use Rattle.passive.specs.Layout.{layout, put};
ghost use Rattle.passify.specs.Measuring.{AtSingle, SomeSingle};
ghost use Rattle.passify.specs.Pieces.{Wrote};
ghost use Rattle.passify.specs.Writing.{passive_terms, TermRoom, TermWritten, single_piece, SingleWritable, Writable, Written};

use crate::maps::NameMap;
use crate::measuring::{
    Measured, entry, left_exits, measure_joined, measure_row, measure_single, measure_stop,
};
use crate::writing::{Place, write_row, write_side};
use kinds::numbered::Name;
use passive::rows::{PassiveRow, PassiveTag, PassiveTermRow};
use routine::rows::{CommandRow, Item, Tag, TermRow};

// A term row with the name of its variable.
fn rename_row(row: TermRow, m: &NameMap) -> PassiveTermRow
    ensures { result ≡ row_of_item (renamed m.now (item row)) }
{
    match Item::from(row) {
        Item::Literal(n) => Item::Literal(n).into(),
        Item::Reference(x) => Item::Reference(m.name_of(x)).into(),
        Item::Operation(k) => Item::Operation(k).into(),
    }
}

// Renaming: the rows of a term, each variable by its name, from `at` on.
fn rename_term(rows: &[TermRow], m: &NameMap, out: &mut [PassiveTermRow], at: u32)
    requires { at + length rows.now ≤ length out.old }
    ensures { out.new ≡ put out.old at (map row_of_item (rename m.now (map item rows.now))) }
{
    for (i, row) in rows.iter().enumerate() {
        out[at as usize + i] = rename_row(*row, m);
    }
}

// The term of a single command, from `at` on, if it has one; answers the place behind it.
fn write_term(
    row: CommandRow,
    terms: &[TermRow],
    m: &NameMap,
    out: &mut [PassiveTermRow],
    at: u32,
) -> u32
    requires { SomeSingle terms.now row (λ c. TermRoom (length (passive_terms c m.now)) at (length out.old)) }
    ensures { AtSingle terms.now row (λ c. TermWritten (passive_terms c m.now) at out.old out.new result) }
{
    if !row.has_term() {
        return at;
    }
    let first = row.from as usize;
    let end = first + row.count as usize;
    rename_term(&terms[first..end], m, out, at);
    at + row.count
}

// The row of a single command, whose term stands from `from` on.
fn single_row(row: CommandRow, next: u32, from: u32) -> PassiveRow
    requires { tag_of row.tag ≡ Ok Assign → next < 2 ^ 16 }
    ensures { (ts : List TermRow) (m : List Name) → AtSingle ts row (λ c. result ∷ [] ≡ layout (passify_single c m next).code 0 from) }
{
    match Tag::try_from(row.tag) {
        Ok(Tag::Assert) => PassiveRow::with_term(PassiveTag::Assert, Name(0), from, row.count),
        Ok(Tag::Assume) => PassiveRow::with_term(PassiveTag::Assume, Name(0), from, row.count),
        Ok(Tag::Assign) => {
            PassiveRow::with_term(PassiveTag::Let, Name(next as u16), from, row.count)
        }
        Ok(Tag::Skip) => PassiveRow::plain(PassiveTag::Skip),
        _ => PassiveRow::plain(PassiveTag::Raise),
    }
}

// The passive form of a single command.
fn passify_single(
    row: CommandRow,
    terms: &[TermRow],
    m: &NameMap,
    next: u32,
    rows: &mut [PassiveRow],
    out: &mut [PassiveTermRow],
    at: Place,
) -> Place
    requires { SomeSingle terms.now row (SingleWritable m.now next at rows.old out.old) }
    ensures { AtSingle terms.now row (λ c. Wrote (single_piece m.now next c at) at rows.old rows.new out.old out.new result) }
{
    let term = write_term(row, terms, m, out, at.term);
    rows[at.row as usize] = single_row(row, next, at.term);
    Place {
        row: at.row + 1,
        term,
    }
}

// What a command's passive form takes, and the place behind it.
#[derive(Clone, Copy)]
pub struct Passed {
    pub measured: Measured,
    pub end: Place,
}

// The passive form of the command that ends at row `i`. The renaming behind the left part needs the maps of the right part, so that is
// measured before it is written.
pub fn passify_row(
    commands: &[CommandRow],
    terms: &[TermRow],
    i: u32,
    names: &Option<NameMap>,
    next: u32,
    rows: &mut [PassiveRow],
    out: &mut [PassiveTermRow],
    at: Place,
) -> Passed
    requires { Writable commands.now terms.now i names.now next at rows.old out.old }
    ensures { Written commands.now terms.now i names.now next at rows.old rows.new out.old out.new result }
{
    let Some(m) = names else {
        return Passed {
            measured: measure_stop(next),
            end: write_row(rows, at, PassiveRow::plain(PassiveTag::Stop)),
        };
    };
    let row = commands[i as usize];
    let Some(joint) = row.joint() else {
        let end = passify_single(row, terms, m, next, rows, out, at);
        let measured = measure_single(row, m, next);
        return Passed { measured, end };
    };
    let left = &passify_row(commands, terms, row.left, names, next, rows, out, at);
    let measured = &left.measured;
    let start = entry(joint, names, &measured.exits);
    let right = &measure_row(commands, i - 1, start, measured.next);
    let exits = &left_exits(joint, &measured.exits);
    let middle = write_side(exits, &right.exits, right.next, rows, out, left.end);
    let again = &passify_row(
        commands,
        terms,
        i - 1,
        start,
        measured.next,
        rows,
        out,
        middle,
    );
    let behind = write_side(&right.exits, exits, right.next, rows, out, again.end);
    let joined = PassiveRow::joining(joint, middle.row - 1);
    Passed {
        measured: measure_joined(joint, measured, right),
        end: write_row(rows, behind, joined),
    }
}
