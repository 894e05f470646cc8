// Routines of a wanted size and depth, written into a lent table.

#![tactic(auto)]

ghost use Rattle.std.specs.Prelude.{◌≡◌, Some, ℕ, ◌%◌, ◌<◌, length, slice_index_or};
ghost use Rattle.shapes.specs.declared.Shape.TheVariants.{Combs};
ghost use Rattle.worked.specs.Tables.{skip_row, literal_row};
ghost use Rattle.shapes.specs.Shapes.{in_half, tree_rows, tree_left, combs_left, chains_left, left_of, shape_name, target_at, row_at, skips, with_sevens, chain_row, sum_row};

use kinds::numbers::PLUS;
use routine::rows::{CommandRow, Joint, TermRow};
use routine::{command_row, term_row};
use std::fmt;

// How the single commands of a routine are joined. All shapes say of any number of rows what they are, so a table is to have as many as
// a whole routine takes: rows behind its last belong to no routine.
#[derive(Clone, Copy)]
pub enum Shape {
    // `outer + 1` combs in one comb. A comb joins its last two parts, then the part before with that, and so on to its first: the inner
    // combs have `inner + 1` single commands each. (outer + 1) * (2 * inner + 1) + outer rows, of depth outer + inner + 1.
    Combs { outer: u8, inner: u8 },
    // Chains of `inner + 1` single commands each, in one chain. A chain joins its first two parts, then that with the third, and so on to
    // its last. Of n + 1 chains n * (2 * inner + 2) + 2 * inner + 1 rows, of depth n + inner + 1.
    Chains { inner: u8 },
    // The shallowest: each joined row has parts of the same size. 2^h - 1 rows of depth h, for h up to 10.
    Tree,
}

// One comb of so many joined rows. 2 * joined + 1 rows, of depth joined + 1.
pub fn comb(joined: u8) -> Shape
    ensures { result ≡ Combs 0 joined }
{
    Shape::Combs {
        outer: 0,
        inner: joined,
    }
}

// A routine: its shape, what joins its parts, and the single command that it repeats, with the variables v0, v1 .. as its targets
// in turn.
#[derive(Clone, Copy)]
pub struct Pattern {
    pub shape: Shape,
    // The tag of the rows that join.
    pub joint: u32,
    pub single: CommandRow,
    pub variables: u32,
}

pub const SKIP: CommandRow = command_row!(skip);

// Skips in sequence.
pub fn skips(shape: Shape) -> Pattern
    ensures { result ≡ skips shape }
{
    Pattern {
        shape,
        joint: u32::from(Joint::Sequence),
        single: SKIP,
        variables: 0,
    }
}

// The rows of perfect trees, from the largest.
const PERFECT: [u32; 10] = [1023, 511, 255, 127, 63, 31, 15, 7, 3, 1];

// Row n of two halves of a tree, counted in its own half.
fn in_half(size: u32, n: u32) -> u32
    ensures { result ≡ in_half size n }
{
    if n > size {
        return n - size;
    }
    n
}

// How many rows of a perfect tree the part takes that ends at its n-th row.
#[tactic(auto, using(crate::proofs::Trees::part_there, crate::proofs::Trees::part_smaller), unfolding(crate::specs::Shapes::tree_rows))]
fn tree_rows(n: u32) -> u32
    ensures { result ≡ tree_rows n }
{
    let mut n = n;
    for size in PERFECT {
        n = in_half(size, n);
        if n == size {
            return size;
        }
    }
    1
}

// Where the left part of row i of a perfect tree ends, if it is joined: as many rows before it as its right part has.
fn tree_left(i: u16) -> Option<u32>
    ensures { result ≡ tree_left i }
{
    let i = i as u32;
    let rows = tree_rows(i + 1);
    if rows == 1 {
        return None;
    }
    Some(i.saturating_sub(rows / 2 + 1))
}

// Where the left part of row i of a comb of combs ends, if it is joined.
fn combs_left(outer: u8, inner: u8, i: u16) -> Option<u32>
    ensures { result ≡ combs_left outer inner i }
{
    let (outer, inner, i) = (outer as u32, inner as u32, i as u32);
    let size = 2 * inner + 1;
    let combs = (outer + 1) * size;
    if i < combs {
        let k = i % size;
        if k <= inner {
            return None;
        }
        return Some(i / size * size + (2 * inner - k));
    }
    let joined = i - combs;
    Some((outer.saturating_sub(joined) * size).saturating_sub(1))
}

// Where the left part of row i of a chain of chains ends, if it is joined.
fn chains_left(inner: u8, i: u16) -> Option<u32>
    ensures { result ≡ chains_left inner i }
{
    let i = i as u32;
    let size = 2 * inner as u32 + 1;
    let k = if i < size { i } else { (i - size) % (size + 1) };
    if k == size {
        return Some(i.saturating_sub(size + 1));
    }
    if k == 0 || k % 2 == 1 {
        return None;
    }
    Some(i.saturating_sub(2))
}

impl Shape {
    // Where the left part of row i ends, if it is joined.
    fn left(self, i: u16) -> Option<u32>
        ensures { result ≡ left_of self i }
    {
        match self {
            Shape::Combs { outer, inner } => combs_left(outer, inner, i),
            Shape::Chains { inner } => chains_left(inner, i),
            Shape::Tree => tree_left(i),
        }
    }
}

impl fmt::Display for Shape {
    ghost output = { λ shape. Some (shape_name shape) };

    fn fmt<W: fmt::Write>(&self, f: &mut fmt::Formatter<W>) -> fmt::Result {
        f.write_str(match self {
            Shape::Combs { .. } => "combs",
            Shape::Chains { .. } => "chains",
            Shape::Tree => "trees",
        })
    }
}

// The variables in turn.
fn target_at(variables: u32, i: u16) -> u32
    ensures { result ≡ target_at variables i }
{
    if variables == 0 {
        return 0;
    }
    i as u32 % variables
}

impl Pattern {
    // Row i of the routine.
    fn row(self, i: u16) -> CommandRow
        ensures { result ≡ row_at self i }
    {
        match self.shape.left(i) {
            None => CommandRow {
                target: target_at(self.variables, i),
                ..self.single
            },
            Some(left) => CommandRow {
                tag: self.joint,
                left,
                ..SKIP
            },
        }
    }
}

// Writes the routine into the table. Rows are numbered by 16 bits: behind 65,536 rows the same come again.
pub fn fill(rows: &mut [CommandRow], pattern: Pattern)
    ensures length { length rows.new ≡ length rows.old }
    ensures rows { (k : ℕ) → k < length rows.old → slice_index_or rows.new k skip_row ≡ row_at pattern (k % 65536) }
{
    for (i, row) in rows.iter_mut().enumerate() {
        *row = pattern.row((i % 65536) as u16);
    }
}

// A skip, or a row that joins two parts, with 7 in each field that its tag does not read.
fn with_sevens(row: CommandRow) -> CommandRow
    ensures { result ≡ with_sevens row }
{
    CommandRow {
        tag: row.tag,
        target: 7,
        from: 7,
        count: 7,
        left: if row.joint().is_some() { row.left } else { 7 },
    }
}

// Writes into the table chains of `inner + 1` skips each, in one chain, with 7 in each field that no tag reads. Behind 65,536 rows the same
// come again.
pub fn fill_chains(rows: &mut [CommandRow], inner: u8)
    ensures length { length rows.new ≡ length rows.old }
    ensures rows { (k : ℕ) → k < length rows.old → slice_index_or rows.new k skip_row ≡ chain_row inner (k % 65536) }
{
    let pattern = skips(Shape::Chains { inner });
    for (i, row) in rows.iter_mut().enumerate() {
        *row = with_sevens(pattern.row((i % 65536) as u16));
    }
}

// Row i of a term of this many rows that adds ones.
fn sum_row(rows: usize, i: usize) -> TermRow
    ensures { result ≡ sum_row rows i }
{
    if i <= rows / 2 {
        term_row!(literal 1)
    } else {
        term_row!(operation PLUS)
    }
}

// Writes into a table of 2 * n - 1 rows the term that adds n times 1: n literals, which all wait, and then the additions.
pub fn fill_sum(terms: &mut [TermRow])
    ensures length { length terms.new ≡ length terms.old }
    ensures rows { (k : ℕ) → k < length terms.old → slice_index_or terms.new k (literal_row 0) ≡ sum_row (length terms.old) k }
{
    let rows = terms.len();
    for (i, term) in terms.iter_mut().enumerate() {
        *term = sum_row(rows, i);
    }
}
