// The nodes of a passive form, row by row.
ghost use Rattle.std.specs.Prelude.{◌≡◌, ◌+◌, ◌<◌, [], length};
ghost use Rattle.conditions.specs.Made.{ends_at, last_ends, RowsMade, TableMade};
ghost use Rattle.conditions.specs.Valued.{RowsUsed};
ghost use Rattle.conditions.specs.Asks.{Room, ends_of, RowsFit, rows_nodes};

use crate::making::make;
use crate::rows::{NO, row_nodes};
use formula::stores::{Making, Store};
use kinds::numbered::Node;
use passive::rows::{PassiveRow, PassiveTermRow};

// The nodes in a row.
fn nodes_at(rows: &[PassiveRow], i: u32) -> (Node, Node, Node)
    requires { i < length rows.now }
    ensures { ends_of result ≡ ends_at rows.now i }
{
    let row = rows[i as usize];
    (row.n, row.x, row.w)
}

// Makes the nodes of each row and writes them into it; answers those of the last row.
fn form_nodes<S: Store>(
    store: &mut S,
    rows: &mut [PassiveRow],
    terms: &[PassiveTermRow],
) -> (Node, Node, Node)
    requires fit { RowsFit S.Value.kind.ops (S.meaning.width store.old) terms.now 0 rows.old }
    requires used { RowsUsed S.meaning store.old rows.old }
    requires room { Room S.meaning store.old (rows_nodes terms.now rows.old) }
    ensures made { RowsMade S.steps terms.now store.old [] rows.old store.new rows.new }
    ensures last { ends_of result ≡ last_ends rows.new }
{
    let mut last = (NO, NO, NO);
    // By index, since a row takes nodes that were written into earlier ones.
    for i in 0..rows.len() {
        let row = rows[i];
        let first = row.from as usize;
        let term = &terms[first..first + row.count as usize];
        let left = nodes_at(rows, row.left);
        last = row_nodes(store, row, term, left, last);
        let (n, x, w) = last;
        rows[i] = PassiveRow { n, x, w, ..row };
    }
    last
}

// Makes the nodes of each row, and the condition last: not W of the last row.
pub fn condition_node<S: Store>(
    store: &mut S,
    rows: &mut [PassiveRow],
    terms: &[PassiveTermRow],
) -> Node
    requires fit { RowsFit S.Value.kind.ops (S.meaning.width store.old) terms.now 0 rows.old }
    requires used { RowsUsed S.meaning store.old rows.old }
    requires room { Room S.meaning store.old (rows_nodes terms.now rows.old + 1) }
    ensures { TableMade S.steps terms.now rows.old store.old rows.new result store.new }
{
    let (_, _, wrong) = form_nodes(store, rows, terms);
    make(store, Making::Not(wrong))
}
