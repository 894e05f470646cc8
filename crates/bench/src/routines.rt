// The routines that are counted and timed: assignments, in families that grow.
ghost use Rattle.std.specs.Prelude.{◌≡◌, ℕ, ◌%◌, ◌<◌, IfOk, vec_len, slice_index_or};
ghost use Rattle.worked.specs.Tables.{skip_row};
ghost use Rattle.shapes.specs.Shapes.{row_at};
ghost use Rattle.bench.specs.Sizes.{pattern, tree, combs, trees, deep_combs, smaller_combs, joined_by, families};

use kinds::numbers::PLUS;
use routine::rows::{CommandRow, Joint, TermRow};
use routine::{command_row, term_row};
use shapes::{Pattern, SKIP, Shape, fill};
use std::alloc::{AllocError, Global};

// A shape with as many rows as its whole routine has, and how deep that is.
#[derive(Clone, Copy)]
pub struct Size {
    pub rows: u32,
    pub depth: u32,
    pub shape: Shape,
}

// Routines that differ in their size alone, from the smallest to the largest.
#[derive(Clone, Copy)]
pub struct Family {
    pub joint: Joint,
    pub variables: u32,
    pub sizes: [Size; 4],
}

fn tree(rows: u32, depth: u32) -> Size
    ensures { result ≡ tree rows depth }
{
    Size {
        rows,
        depth,
        shape: Shape::Tree,
    }
}

fn combs(outer: u8, inner: u8) -> Size
    ensures { result ≡ combs outer inner }
{
    let (joined, leaves) = (outer as u32, inner as u32 + 1);
    Size {
        rows: (joined + 1) * (2 * leaves - 1) + joined,
        depth: joined + leaves,
        shape: Shape::Combs { outer, inner },
    }
}

fn trees() -> [Size; 4]
    ensures { result ≡ trees }
{
    [tree(31, 5), tree(127, 7), tree(511, 9), tree(1023, 10)]
}

// From 17 rows to the most that a depth of 64 has room for.
fn deep_combs() -> [Size; 4]
    ensures { result ≡ deep_combs }
{
    [combs(0, 8), combs(0, 63), combs(3, 60), combs(8, 55)]
}

// Choices over 8 variables in larger combs than these take too many names.
fn smaller_combs() -> [Size; 4]
    ensures { result ≡ smaller_combs }
{
    [combs(0, 8), combs(0, 63), combs(1, 62), combs(3, 60)]
}

fn joined_by(joint: Joint, variables: u32, sizes: [Size; 4]) -> Family
    ensures { result ≡ joined_by joint variables sizes }
{
    Family {
        joint,
        variables,
        sizes,
    }
}

pub fn families() -> [Family; 8]
    ensures { result ≡ families }
{
    [
        joined_by(Joint::Sequence, 1, trees()),
        joined_by(Joint::Sequence, 32, trees()),
        joined_by(Joint::Sequence, 8, deep_combs()),
        joined_by(Joint::Sequence, 32, deep_combs()),
        joined_by(Joint::Choice, 8, trees()),
        joined_by(Joint::Choice, 32, trees()),
        joined_by(Joint::Choice, 1, deep_combs()),
        joined_by(Joint::Choice, 8, smaller_combs()),
    ]
}

// The term of every assignment: v0 + 1.
pub const TERMS: [TermRow; 3] = [
    term_row!(variable 0),
    term_row!(literal 1),
    term_row!(operation PLUS),
];

// The command rows of a family's routine of this size.
pub fn commands(heap: Global, family: Family, size: Size) -> Result<Vec<CommandRow>, AllocError>
    ensures { IfOk result (λ v. (vec_len v ≡ size.rows) × ((k : ℕ) → k < size.rows → slice_index_or v.items k skip_row ≡ row_at (pattern family size) (k % 65536))) }
{
    let mut rows = vec![in heap; SKIP; size.rows as usize]?;
    fill(
        rows.as_mut_slice(),
        Pattern {
            shape: size.shape,
            joint: u32::from(family.joint),
            single: command_row!(assign 0, term 0 + 3),
            variables: family.variables,
        },
    );
    Ok(rows)
}
