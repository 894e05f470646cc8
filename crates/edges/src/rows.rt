// Rows with any fields: tests write what a row's tag does not read, and tags that there are not.
ghost use Rattle.std.specs.Prelude.{◌≡◌};

use routine::rows::{CommandRow, TermRow};

pub fn row(tag: u32, target: u32, from: u32, count: u32, left: u32) -> CommandRow
    ensures { result ≡ record { tag = tag; target = target; from = from; count = count; left = left } }
{
    CommandRow {
        tag,
        target,
        from,
        count,
        left,
    }
}

pub fn item(tag: u32, number: u16) -> TermRow
    ensures { result ≡ record { tag = tag; number = number } }
{
    TermRow { tag, number }
}
