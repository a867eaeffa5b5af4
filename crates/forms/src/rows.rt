// Tables of rows: entries of one width, whose last two bytes are the lengths of their bodies, and all bodies behind one another.
ghost use Rattle.std.specs.Prelude.{◌≡◌, ◌+◌, ◌*◌, ◌<◌, ◌≤◌, eqb, length, get_or};
ghost use Rattle.cedar.specs.Types.{eq_names};
ghost use Rattle.forms.specs.Parts.{part, rest, rd};
ghost use Rattle.forms.specs.Search.{Laid};
ghost use Rattle.forms.specs.TypeBytes.{names_by};
ghost use Rattle.forms.specs.RowBytes.{Within, TakenWithin, Taken, Skipped, Sought};

use crate::kinds::Requirement;
use crate::numbers::u16_at;
use crate::offsets::Offset;
use crate::widths::Width;

// An entry and its body.
#[derive(Clone, Copy)]
pub struct Row<'a> {
    pub head: &'a [u8],
    pub body: &'a [u8],
}

// What is left of a table: how many rows, their entries and their bodies.
#[derive(Clone, Copy)]
pub struct Rows<'a, const WIDTH: usize> {
    pub left: usize,
    pub entries: &'a [u8],
    pub bodies: &'a [u8],
}

// What is left of an attribute list.
pub type Attributes<'a> = Rows<'a, { Width::ATTRIBUTE }>;

// Of members of a set, of a call's arguments or of a list's types.
pub type Members<'a> = Rows<'a, { Width::MEMBER }>;

// Of a record value's pairs.
pub type Pairs<'a> = Rows<'a, { Width::PAIR }>;

impl<'a> Row<'a> {
    // The name that its entry begins with.
    #[inline]
    pub fn name(self) -> usize
        requires { 2 ≤ length self.head.now }
        ensures { (result ≡ rd self.entry.head.now 0) × (result < 65536) }
    {
        u16_at(self.head, 0)
    }

    // Whether an attribute's entry says that it is required.
    #[inline]
    pub fn is_required(self) -> bool
        requires { 3 ≤ length self.head.now }
        ensures { result ≡ eqb (get_or self.entry.head.now 2 0) 1 }
    {
        self.head[Offset::REQUIRED] == Requirement::REQUIRED
    }
}

impl<'a, const WIDTH: usize> Rows<'a, WIDTH> {
    // The table whose count stands at a place of a form.
    #[inline]
    pub fn at(t: &'a [u8], at: usize) -> Rows<'a, WIDTH>
        requires { at + 2 + WIDTH * rd t.now at ≤ length t.now }
        ensures left { result.left ≡ rd t.now at }
        ensures few { result.left < 65536 }
        ensures entries { result.entries.now ≡ part (at + 2) (at + 2 + WIDTH * rd t.now at) t.now }
        ensures bodies { result.bodies.now ≡ rest (at + 2 + WIDTH * rd t.now at) t.now }
    {
        let left = u16_at(t, at);
        let (entries, bodies) = t[at + Width::COUNT..].split_at(WIDTH * left);
        Rows {
            left,
            entries,
            bodies,
        }
    }

    // The same, if the form has room for its entries.
    #[inline]
    pub fn within(t: &'a [u8], at: usize) -> Option<Rows<'a, WIDTH>>
        requires { (at < 4) × (WIDTH < 256) }
        ensures { Within WIDTH at t.now result }
    {
        let start = at + Width::COUNT;
        if t.len() < start {
            return None;
        }
        let left = u16_at(t, at);
        let end = start + WIDTH * left;
        if t.len() < end {
            return None;
        }
        Some(Rows {
            left,
            entries: &t[start..end],
            bodies: &t[end..],
        })
    }

    // Takes the first row, if its body is there.
    #[inline]
    pub fn take(&mut self) -> Option<Row<'a>>
        requires some { 0 < self.old.left }
        requires sized { (2 ≤ WIDTH) × (length self.old.entries.now ≡ WIDTH * self.old.left) }
        ensures { TakenWithin WIDTH self.old.left self.old.entries.now self.old.bodies.now self.new.left self.new.entries.now self.new.bodies.now result }
    {
        let (head, entries) = self.entries.split_at(WIDTH);
        let len = u16_at(head, WIDTH - Width::LENGTH);
        if self.bodies.len() < len {
            return None;
        }
        let (body, bodies) = self.bodies.split_at(len);
        self.left -= 1;
        self.entries = entries;
        self.bodies = bodies;
        Some(Row { head, body })
    }

    // Takes the first row.
    #[inline]
    pub fn next(&mut self) -> Option<Row<'a>>
        requires { Laid WIDTH self.old.left self.old.entries.now self.old.bodies.now }
        ensures { Taken WIDTH self.old.left self.old.entries.now self.old.bodies.now self.new.left self.new.entries.now self.new.bodies.now result }
    {
        if self.left == 0 {
            return None;
        }
        let (head, entries) = self.entries.split_at(WIDTH);
        let (body, bodies) = self.bodies.split_at(u16_at(head, WIDTH - Width::LENGTH));
        self.left -= 1;
        self.entries = entries;
        self.bodies = bodies;
        Some(Row { head, body })
    }

    // Passes the rows whose names are below a name.
    #[inline]
    pub fn skip_below(&mut self, name: usize)
        requires { Laid WIDTH self.old.left self.old.entries.now self.old.bodies.now }
        ensures { Skipped WIDTH self.old.left name self.old.entries.now self.old.bodies.now self.new.left self.new.entries.now self.new.bodies.now }
    {
        while 0 < self.left {
            if name <= u16_at(self.entries, 0) {
                return;
            }
            self.next();
        }
    }

    // The row of a name, where the rows below the name end, which are passed for good.
    #[inline]
    pub fn find(&mut self, name: usize) -> Option<Row<'a>>
        requires { Laid WIDTH self.old.left self.old.entries.now self.old.bodies.now }
        ensures passed { Skipped WIDTH self.old.left name self.old.entries.now self.old.bodies.now self.new.left self.new.entries.now self.new.bodies.now }
        ensures sought { Sought WIDTH self.new.left name self.new.entries.now self.new.bodies.now result }
    {
        self.skip_below(name);
        let mut ahead = *self;
        let row = ahead.next()?;
        if row.name() == name {
            return Some(row);
        }
        None
    }
    // Whether its rows have the same names as another table's, one by one.
    #[inline]
    pub fn same_names(self, other: Rows<WIDTH>) -> bool
        requires wide { 2 ≤ WIDTH }
        requires sized { (WIDTH * self.left ≤ length self.entries.now) × (WIDTH * other.left ≤ length other.entries.now) }
        ensures { result ≡ eq_names (names_by WIDTH self.entry.left self.entry.entries.now) (names_by WIDTH other.entry.left other.entry.entries.now) }
    {
        if self.left != other.left {
            return false;
        }
        let mut others = other.entries;
        for entry in self.entries[..WIDTH * self.left].chunks_exact(WIDTH) {
            if u16_at(entry, 0) != u16_at(others, 0) {
                return false;
            }
            others = &others[WIDTH..];
        }
        true
    }
}
