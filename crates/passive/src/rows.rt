// The rows of a passive form.
ghost use Rattle.std.specs.Prelude.{◌≡◌};
ghost use Rattle.routine.specs.Standing.{joint_tag};
ghost use Rattle.passive.specs.Rows.{tag_number, tag_of, item, term_row};
ghost use Rattle.passive.specs.Layout.{passive_row, plain_row, joint_row};

use kinds::numbered::{Name, Node};
use kinds::refusals::Refusal;
use routine::rows::{Item, Joint};

// A row of a passive term. Tags: 1 literal, 2 name, 3 operation.
#[derive(Clone, Copy, Debug, PartialEq, Eq)]
pub struct PassiveTermRow {
    pub tag: u32,
    pub number: u16,
}

// A row of a passive form. Tags: 1 assert, 2 assume, 4 skip, 5 raise, 6 sequence, 7 choice, 8 catch, 9 let, 10 stop.
// The term of tags 1, 2 and 9 is the `count` passive term rows from row `from` on; tag 9 gives it to `f`. The left part of tags 6 to 8
// ends at row `left`, the right part at the row before. `n`, `x` and `w` are the nodes that say whether the row may end normally, raised
// or wrong. Fields that a tag does not use are 0.
#[derive(Clone, Copy, Debug, PartialEq, Eq)]
pub struct PassiveRow {
    pub tag: u32,
    pub f: Name,
    pub from: u32,
    pub count: u32,
    pub left: u32,
    pub n: Node,
    pub x: Node,
    pub w: Node,
}

impl PassiveTermRow {
    // A row that is yet to be written.
    pub const BLANK: PassiveTermRow = PassiveTermRow { tag: 0, number: 0 };
}

impl PassiveRow {
    // A row that is yet to be written.
    pub const BLANK: PassiveRow = PassiveRow {
        tag: 0,
        f: Name(0),
        from: 0,
        count: 0,
        left: 0,
        n: Node(0),
        x: Node(0),
        w: Node(0),
    };

    // A row with a term, which a let gives to `f`.
    pub fn with_term(tag: PassiveTag, f: Name, from: u32, count: u32) -> PassiveRow
        ensures { result ≡ passive_row (tag_number tag) f from count 0 }
    {
        PassiveRow {
            tag: u32::from(tag),
            f,
            from,
            count,
            ..PassiveRow::BLANK
        }
    }

    // A row that joins two parts.
    pub fn joining(joint: Joint, left: u32) -> PassiveRow
        ensures { result ≡ joint_row (joint_tag joint) left }
    {
        PassiveRow {
            tag: u32::from(PassiveTag::Join(joint)),
            left,
            ..PassiveRow::BLANK
        }
    }

    // A row that is its tag alone.
    pub fn plain(tag: PassiveTag) -> PassiveRow
        ensures { result ≡ plain_row (tag_number tag) }
    {
        PassiveRow::with_term(tag, Name(0), 0, 0)
    }
}

// What a row of a passive form is.
#[derive(Clone, Copy, Debug, PartialEq, Eq)]
pub enum PassiveTag {
    Assert,
    Assume,
    Skip,
    Raise,
    Join(Joint),
    Let,
    Stop,
}

impl From<PassiveTag> for u32 {
    ghost from_gives = { λ tag number. number ≡ tag_number tag };

    fn from(tag: PassiveTag) -> u32 {
        match tag {
            PassiveTag::Assert => 1,
            PassiveTag::Assume => 2,
            PassiveTag::Skip => 4,
            PassiveTag::Raise => 5,
            PassiveTag::Join(joint) => u32::from(joint),
            PassiveTag::Let => 9,
            PassiveTag::Stop => 10,
        }
    }
}

impl TryFrom<u32> for PassiveTag {
    type Error = Refusal;

    ghost try_from_gives = { λ number r. r ≡ tag_of number };

    fn try_from(number: u32) -> Result<PassiveTag, Refusal> {
        match number {
            1 => Ok(PassiveTag::Assert),
            2 => Ok(PassiveTag::Assume),
            4 => Ok(PassiveTag::Skip),
            5 => Ok(PassiveTag::Raise),
            6 => Ok(PassiveTag::Join(Joint::Sequence)),
            7 => Ok(PassiveTag::Join(Joint::Choice)),
            8 => Ok(PassiveTag::Join(Joint::Catch)),
            9 => Ok(PassiveTag::Let),
            10 => Ok(PassiveTag::Stop),
            _ => Err(Refusal::Tag),
        }
    }
}

impl From<Item<Name>> for PassiveTermRow {
    ghost from_gives = { λ i row. row ≡ term_row i };

    fn from(item: Item<Name>) -> PassiveTermRow {
        match item {
            Item::Literal(number) => PassiveTermRow { tag: 1, number },
            Item::Reference(f) => PassiveTermRow {
                tag: 2,
                number: f.0,
            },
            Item::Operation(number) => PassiveTermRow { tag: 3, number },
        }
    }
}

// What a row says in a passive term: tags other than 1 and 2 are 3.
impl From<PassiveTermRow> for Item<Name> {
    ghost from_gives = { λ row i. i ≡ item row };

    fn from(row: PassiveTermRow) -> Item<Name> {
        match row.tag {
            1 => Item::Literal(row.number),
            2 => Item::Reference(Name(row.number)),
            _ => Item::Operation(row.number),
        }
    }
}
