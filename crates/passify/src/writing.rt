// Writing into the two tables of a passive form: rows, and the renamings that stand behind a part of a joined command.
// The tables stay two parameters: a struct that held both would owe, in each method, a clause that each is still the caller's.
ghost use Rattle.std.specs.Prelude.{◌≡◌, ◌+◌, ◌^◌, ◌<◌, ◌≤◌, List, length, Some};
ghost use Rattle.passify.specs.Pieces.{one_row, let_piece, next_let, lets_piece, tail_piece, guard_piece, Wrote, Room};
ghost use Rattle.passify.specs.Writing.{renamings, next_after, next_after_both, side};

use crate::maps::{Exits, NameMap};
use kinds::numbered::Name;
use passive::rows::{PassiveRow, PassiveTag, PassiveTermRow};
use routine::rows::{Item, Joint};

// A place in the two tables: the next row and the next term row.
#[derive(Clone, Copy)]
pub struct Place {
    pub row: u32,
    pub term: u32,
}

pub fn write_row(rows: &mut [PassiveRow], at: Place, row: PassiveRow) -> Place
    requires within { at.row < length rows.old }
    requires few { at.row + 1 < 2 ^ 32 }
    ensures { (T : List PassiveTermRow) → Wrote (one_row row) at rows.old rows.new T T result }
{
    rows[at.row as usize] = row;
    Place {
        row: at.row + 1,
        term: at.term,
    }
}

// One let: the new name takes the value of the old one.
fn write_let(
    rows: &mut [PassiveRow],
    terms: &mut [PassiveTermRow],
    at: Place,
    new: Name,
    old: Name,
) -> Place
    requires { Room (let_piece (record { new = new; old = old }) at.term) at rows.old terms.old }
    ensures { Wrote (let_piece (record { new = new; old = old }) at.term) at rows.old rows.new terms.old terms.new result }
{
    terms[at.term as usize] = Item::Reference(old).into();
    rows[at.row as usize] = PassiveRow::with_term(PassiveTag::Let, new, at.term, 1);
    Place {
        row: at.row + 1,
        term: at.term + 1,
    }
}

// One more let, where the first of them stands at `start`: behind others it is joined to them by a sequence.
fn write_next_let(
    rows: &mut [PassiveRow],
    terms: &mut [PassiveTermRow],
    start: Place,
    at: Place,
    new: Name,
    old: Name,
) -> Place
    requires behind { start.row ≤ at.row }
    requires room { Room (next_let start (record { new = new; old = old }) at) at rows.old terms.old }
    ensures { Wrote (next_let start (record { new = new; old = old }) at) at rows.old rows.new terms.old terms.new result }
{
    let after = write_let(rows, terms, at, new, old);
    if at.row == start.row {
        return after;
    }
    write_row(
        rows,
        after,
        PassiveRow::joining(Joint::Sequence, at.row - 1),
    )
}

// The place behind what was written, and the next new name.
#[derive(Clone, Copy)]
pub struct Renamed {
    pub end: Place,
    pub next: u32,
}

// A let for each variable that the two maps name apart: its new name takes the value of its name in `a`.
fn write_lets(
    a: &NameMap,
    b: &NameMap,
    next: u32,
    rows: &mut [PassiveRow],
    terms: &mut [PassiveTermRow],
    start: Place,
) -> Renamed
    requires names { next_after (Some a.now) (Some b.now) next ≤ 2 ^ 16 }
    requires room { Room (lets_piece (renamings (Some a.now) (Some b.now) next) start.row start.term) start rows.old terms.old }
    ensures wrote { Wrote (lets_piece (renamings (Some a.now) (Some b.now) next) start.row start.term) start rows.old rows.new terms.old terms.new result.end }
    ensures next { result.next ≡ next_after (Some a.now) (Some b.now) next }
{
    let mut at = start;
    let mut k = next;
    for (old, other) in a.as_slice().iter().zip(b.as_slice()) {
        if old != other {
            at = write_next_let(rows, terms, start, at, Name(k as u16), *old);
            k += 1;
        }
    }
    Renamed { end: at, next: k }
}

// The same of maps that may be absent: then there is nothing to rename.
fn write_renaming(
    a: Option<NameMap>,
    b: Option<NameMap>,
    next: u32,
    rows: &mut [PassiveRow],
    terms: &mut [PassiveTermRow],
    at: Place,
) -> Renamed
    requires names { next_after a b next ≤ 2 ^ 16 }
    requires room { Room (lets_piece (renamings a b next) at.row at.term) at rows.old terms.old }
    ensures wrote { Wrote (lets_piece (renamings a b next) at.row at.term) at rows.old rows.new terms.old terms.new result.end }
    ensures next { result.next ≡ next_after a b next }
{
    match (a, b) {
        (Some(x), Some(y)) => write_lets(&x, &y, next, rows, terms, at),
        _ => Renamed { end: at, next },
    }
}

// The renaming of a part where it ends normally, behind the part.
fn write_tail(
    a: Option<NameMap>,
    b: Option<NameMap>,
    next: u32,
    rows: &mut [PassiveRow],
    terms: &mut [PassiveTermRow],
    at: Place,
) -> Renamed
    requires names { next_after a b next ≤ 2 ^ 16 }
    requires behind { 0 < at.row }
    requires room { Room (tail_piece (renamings a b next) at.row at.term) at rows.old terms.old }
    ensures wrote { Wrote (tail_piece (renamings a b next) at.row at.term) at rows.old rows.new terms.old terms.new result.end }
    ensures next { result.next ≡ next_after a b next }
{
    let lets = write_renaming(a, b, next, rows, terms, at);
    if lets.end.row == at.row {
        return lets;
    }
    let joined = PassiveRow::joining(Joint::Sequence, at.row - 1);
    Renamed {
        end: write_row(rows, lets.end, joined),
        next: lets.next,
    }
}

// The renaming of a part where it ends raised, behind the part.
fn write_guard(
    a: Option<NameMap>,
    b: Option<NameMap>,
    next: u32,
    rows: &mut [PassiveRow],
    terms: &mut [PassiveTermRow],
    at: Place,
) -> Renamed
    requires names { next_after a b next ≤ 2 ^ 16 }
    requires behind { 0 < at.row }
    requires room { Room (guard_piece (renamings a b next) at.row at.term) at rows.old terms.old }
    ensures wrote { Wrote (guard_piece (renamings a b next) at.row at.term) at rows.old rows.new terms.old terms.new result.end }
    ensures next { result.next ≡ next_after a b next }
{
    let lets = write_renaming(a, b, next, rows, terms, at);
    if lets.end.row == at.row {
        return lets;
    }
    let raise = write_row(rows, lets.end, PassiveRow::plain(PassiveTag::Raise));
    let joined = PassiveRow::joining(Joint::Sequence, lets.end.row - 1);
    let sequence = write_row(rows, raise, joined);
    let caught = PassiveRow::joining(Joint::Catch, at.row - 1);
    Renamed {
        end: write_row(rows, sequence, caught),
        next: lets.next,
    }
}

// Both renamings of a part with the exits `a`, where the other part has the exits `b`.
pub fn write_side(
    a: &Exits,
    b: &Exits,
    next: u32,
    rows: &mut [PassiveRow],
    terms: &mut [PassiveTermRow],
    at: Place,
) -> Place
    requires names { next_after_both a.now b.now next ≤ 2 ^ 16 }
    requires behind { 0 < at.row }
    requires room { Room (side a.now b.now next at) at rows.old terms.old }
    ensures { Wrote (side a.now b.now next at) at rows.old rows.new terms.old terms.new result }
{
    let tail = write_tail(a.normal, b.normal, next, rows, terms, at);
    write_guard(a.raised, b.raised, tail.next, rows, terms, tail.end).end
}
