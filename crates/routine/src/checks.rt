// The check: whether the rows are a routine.
ghost use Rattle.std.specs.Prelude.{◌≡◌, ℕ, ◌+◌, ◌≤◌, ◌&&◌, length};
ghost use Rattle.routine.specs.Decoding.{part, well_formed, has_term, reading, decode, verdict};
ghost use Rattle.routine.specs.Standing.{DecodingSound, DecodingComplete};
ghost use Rattle.routine.specs.Checking.{stepped, Ready, joined_part, part_at};

use crate::limits::{DEEPEST, MOST_COMMANDS, MOST_TERMS, MOST_VARIABLES, MOST_WAITING};
use crate::rows::{CommandRow, Tag, TermRow};
use kinds::kind::Kind;
use kinds::refusals::Refusal;

// How many values wait after one more row of a term, or `None` where the row may not stand there.
fn waiting_after_row(v: u32, ops: u32, waiting: u32, row: TermRow) -> Option<u32>
    ensures { result ≡ stepped v ops waiting row }
{
    let number = u32::from(row.number);
    let pushes = match row.tag {
        1 => true,
        2 => number < v,
        3 => {
            return if number < ops && waiting >= 2 {
                Some(waiting - 1)
            } else {
                None
            };
        }
        _ => false,
    };
    if pushes && waiting < MOST_WAITING {
        Some(waiting + 1)
    } else {
        None
    }
}

fn rows_make_a_term(v: u32, ops: u32, rows: &[TermRow]) -> bool
    ensures { result ≡ well_formed v ops 0 rows.now }
{
    let mut waiting = 0;
    for row in rows {
        match waiting_after_row(v, ops, waiting, *row) {
            Some(n) => waiting = n,
            None => return false,
        }
    }
    waiting == 1
}

fn row_has_term(v: u32, ops: u32, terms: &[TermRow], row: CommandRow) -> bool
    ensures { result ≡ has_term v ops terms.now row }
{
    let first = row.from as usize;
    let end = first + row.count as usize;
    end <= terms.len() && rows_make_a_term(v, ops, &terms[first..end])
}

// Of a command, its first row and its depth.
#[derive(Clone, Copy)]
struct Part {
    first: u32,
    depth: u32,
}

// The command that row `i` makes of the two before it.
fn join_at(parts: &[Part], i: u32, left: u32) -> Result<Part, Refusal>
    requires { Ready parts.now i }
    ensures { result ≡ joined_part parts.now i left }
{
    if i == 0 {
        return Err(Refusal::Parts);
    }
    let b = parts[(i - 1) as usize];
    if b.first == 0 || left != b.first - 1 {
        return Err(Refusal::Parts);
    }
    let a = parts[left as usize];
    let deeper = a.depth.max(b.depth);
    if deeper < DEEPEST {
        Ok(Part {
            first: a.first,
            depth: deeper + 1,
        })
    } else {
        Err(Refusal::Parts)
    }
}

// The command that ends at row `i`.
fn place(
    v: u32,
    ops: u32,
    terms: &[TermRow],
    parts: &[Part],
    i: u32,
    row: CommandRow,
) -> Result<Part, Refusal>
    requires { Ready parts.now i }
    ensures { result ≡ part_at parts.now i row.left (reading v ops terms.now row) }
{
    // Asked first, for speed: a routine joins about as many rows as it has others.
    if row.joint().is_some() {
        return join_at(parts, i, row.left);
    }
    match Tag::try_from(row.tag)? {
        Tag::Assign if row.target >= v => Err(Refusal::Target),
        Tag::Assert | Tag::Assume | Tag::Assign if !row_has_term(v, ops, terms, row) => {
            Err(Refusal::Term)
        }
        _ => Ok(Part { first: i, depth: 1 }),
    }
}

fn check_rows(v: u32, ops: u32, commands: &[CommandRow], terms: &[TermRow]) -> Result<(), Refusal>
    ensures { result ≡ verdict (decode v ops commands.now terms.now) }
{
    if v as usize > MOST_VARIABLES
        || commands.is_empty()
        || commands.len() > MOST_COMMANDS
        || terms.len() > MOST_TERMS
    {
        return Err(Refusal::Limits);
    }
    let mut parts = [Part { first: 0, depth: 0 }; MOST_COMMANDS];
    for (i, row) in commands.iter().enumerate() {
        parts[i] = place(v, ops, terms, &parts, i as u32, *row)?;
    }
    if parts[commands.len() - 1].first == 0 {
        Ok(())
    } else {
        Err(Refusal::Whole)
    }
}

// Whether the rows are a routine of `v` variables over the kind: accepted, or refused by the first rule that they break.
pub fn check<K: Kind>(v: u32, commands: &[CommandRow], terms: &[TermRow]) -> Result<(), Refusal>
    ensures answer { result ≡ verdict (decode v K.kind.ops commands.now terms.now) }
    ensures sound { DecodingSound v K.kind.ops commands.now terms.now }
    ensures complete { DecodingComplete v K.kind.ops commands.now terms.now }
{
    check_rows(v, u32::from(K::ops()), commands, terms)
}
