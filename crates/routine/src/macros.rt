// Rows as they are written in code. A static table calls no function, so these are macros.

// A command row: one that has a term, by the term's first row and its count of rows; one that is its tag alone; or one that joins the part
// that ends at row `left` and the part that ends just before it. Fields that its tag does not use are 0.
#[macro_export]
macro_rules! command_row {
    (assert term $from:literal + $count:expr) => { $crate::command_row!(@tag 1, target 0, term $from + $count, left 0) };
    (assume term $from:literal + $count:expr) => { $crate::command_row!(@tag 2, target 0, term $from + $count, left 0) };
    (assign $target:expr, term $from:literal + $count:expr) => {
        $crate::command_row!(@tag 3, target $target, term $from + $count, left 0)
    };
    (skip) => { $crate::command_row!(@tag 4, target 0, term 0 + 0, left 0) };
    (raise) => { $crate::command_row!(@tag 5, target 0, term 0 + 0, left 0) };
    (sequence left $left:expr) => { $crate::command_row!(@tag 6, target 0, term 0 + 0, left $left) };
    (choice left $left:expr) => { $crate::command_row!(@tag 7, target 0, term 0 + 0, left $left) };
    (catch left $left:expr) => { $crate::command_row!(@tag 8, target 0, term 0 + 0, left $left) };
    (@tag $tag:literal, target $target:expr, term $from:literal + $count:expr, left $left:expr) => {
        $crate::rows::CommandRow { tag: $tag, target: $target, from: $from, count: $count, left: $left }
    };
}

// A term row.
#[macro_export]
macro_rules! term_row {
    (literal $number:expr) => { $crate::rows::TermRow { tag: 1, number: $number } };
    (variable $number:expr) => { $crate::rows::TermRow { tag: 2, number: $number } };
    (operation $number:expr) => { $crate::rows::TermRow { tag: 3, number: $number } };
}
