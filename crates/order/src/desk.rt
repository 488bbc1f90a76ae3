// What is known of a form after some of its lines, and what the clerk is told after all.
ghost use Rattle.std.specs.Prelude.{◌≡◌};
ghost use Rattle.order.specs.Written.{repeated_by, refused_by, told_by};
ghost use Rattle.order.specs.Desk.{desk_of, with_row_of, entered_of, noted_of, line_at, row_at, said_of};

use form_text::rows::Entry;
use free_number::map;
use free_number::map::Map;
use order_form::answer::{Answer, Refusal};
use order_form::form;
use order_form::form::Form;
use order_form::row::{Column, Row};

// How many rows have a place.
const ROOM: usize = 127;

// The rows, the line that each stands in, the numbers that they have, how many lines there were, whether all of them were blank or comments, and the
// first that is malformed, if one is.
#[derive(Clone, Copy)]
pub(crate) struct Desk {
    pub form: Form,
    // An array beside the rows, not one of pairs: the rows lie in the `Form` that is checked, and it knows no lines.
    pub places: [u64; 127],
    pub numbers: Map,
    pub lines: u64,
    pub first: bool,
    pub malformed: Option<u64>,
}

// What the clerk is told. Lines are counted from 1. A form that is sent back comes with the lowest number that none of its rows has.
#[derive(Clone, Copy)]
pub(crate) enum Notice {
    Accepted(usize),
    SameSerial {
        line: u64,
        serial: u32,
        earlier: u64,
        free: Option<u32>,
    },
    SameNumber {
        line: u64,
        node: u32,
        earlier: u64,
        free: Option<u32>,
    },
    Outside {
        line: u64,
        node: u32,
    },
    TooMany,
    Malformed(u64),
}

// A form with no line.
#[tactic(auto, unfolding(crate::specs::Desk::desk_of))]
pub(crate) fn bare() -> Desk
    ensures { result ≡ desk_of }
{
    Desk {
        form: form::blank(),
        places: [0; ROOM],
        numbers: map::empty(),
        lines: 0,
        first: true,
        malformed: None,
    }
}

impl Desk {
    // One row more, in the last line. A number that a row has already, or that no head can have, leaves the map as it is.
    fn add(&mut self, row: Row)
        ensures { self.new ≡ with_row_of self.old row }
    {
        if self.form.count < ROOM {
            self.places[self.form.count] = self.lines;
        }
        self.form = form::add(self.form, row);
        self.numbers = map::add(self.numbers, row.node).map;
    }

    // The line of a row.
    fn line(&self, row: usize) -> u64
        ensures { result ≡ line_at self.now row }
    {
        self.places.get(row).copied().unwrap_or(0)
    }

    // A row.
    fn row(&self, row: usize) -> Row
        ensures { result ≡ row_at self.now row }
    {
        let none = Row { serial: 0, node: 0 };
        self.form.rows.get(row).copied().unwrap_or(none)
    }

    // What is told of a row that repeats an earlier one in the column.
    fn repeated(&self, column: Column, row: usize, earlier: usize, free: Option<u32>) -> Notice
        ensures { result ≡ repeated_by column (line_at self.now row) (row_at self.now row) (line_at self.now earlier) free }
    {
        let line = self.line(row);
        let earlier = self.line(earlier);
        let Row { serial, node } = self.row(row);
        match column {
            Column::Serial => Notice::SameSerial {
                line,
                serial,
                earlier,
                free,
            },
            Column::Number => Notice::SameNumber {
                line,
                node,
                earlier,
                free,
            },
        }
    }

    // What is told of a refusal.
    fn refused(&self, why: Refusal) -> Notice
        ensures { result ≡ refused_by (line_at self.now) (row_at self.now) why }
    {
        match why {
            Refusal::Outside(row) => Notice::Outside {
                line: self.line(row),
                node: self.row(row).node,
            },
            Refusal::TooMany => Notice::TooMany,
        }
    }

    // What is told of the rows, by the answer to them.
    fn told(&self, free: Option<u32>, answer: Answer) -> Notice
        ensures { result ≡ told_by (line_at self.now) (row_at self.now) self.now.form.count free answer }
    {
        match answer {
            Answer::AllDiffer => Notice::Accepted(self.form.count),
            Answer::Repeats(column, row, earlier) => self.repeated(column, row, earlier, free),
            Answer::Refused(why) => self.refused(why),
        }
    }
}

// One line more, which is this.
fn entered(desk: &mut Desk, entry: Entry)
    ensures { desk.new ≡ entered_of desk.old entry }
{
    desk.lines = desk.lines.wrapping_add(1);
    desk.first = desk.first && matches!(entry, Entry::Blank);
    match entry {
        Entry::Blank | Entry::Heading => {}
        Entry::Row { serial, node } => desk.add(Row { serial, node }),
        Entry::Malformed => desk.malformed = desk.malformed.or(Some(desk.lines)),
    }
}

// One line more. The desk is lent: to hand it on and back by value would copy all its rows for each line.
#[tactic(auto, unfolding(crate::specs::Desk::noted_of))]
pub(crate) fn noted(d: &mut Desk, text: &[u8])
    ensures { d.new ≡ noted_of d.old text.now }
{
    let entry = form_text::entry(text, d.lines == 0, d.first);
    entered(d, entry);
}

// What the clerk is told: a malformed line goes before all else.
#[tactic(auto, unfolding(crate::specs::Desk::said_of))]
pub(crate) fn said(d: Desk) -> Notice
    ensures { result ≡ said_of d }
{
    match d.malformed {
        Some(line) => Notice::Malformed(line),
        None => d.told(map::lowest_free(d.numbers), form::check(d.form)),
    }
}
