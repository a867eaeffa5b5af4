// The three sections of a schema. Entries of one width stand together, and their bodies in the same order behind all entries.
ghost use Rattle.std.specs.Prelude.{◌≡◌, ◌+◌, ◌*◌, ◌≤◌, length};
ghost use Rattle.forms.specs.Limits.{as_limits};
ghost use Rattle.forms.specs.Parts.{part, rest};
ghost use Rattle.schemas.specs.SchemaBytes.{row_of, Inside, passed_by, entries_end, section_at};

use crate::kinds::SectionKind;
use crate::order::Low;
use forms::limits::Limits;
use forms::numbers::u16_at;
use forms::offsets::SchemaOffset;
use forms::rows::Rows;
use forms::widths::Width;

// How many bytes the three counts take.
#[derive(Clone, Copy)]
pub struct Counts;

impl Counts {
    pub const BYTES: usize = 6;
}

// Where a section lies: how many entries it has, where they start, and where their bodies start.
#[derive(Clone, Copy)]
pub struct Section {
    pub count: usize,
    pub entries: usize,
    pub bodies: usize,
}

impl Section {
    // Its rows, each of so many bytes.
    #[inline]
    pub fn rows<'a, const WIDTH: usize>(self, s: &'a [u8]) -> Rows<'a, WIDTH>
        requires { Inside WIDTH self s.now }
        ensures left { result.left ≡ self.count }
        ensures entries { result.entries.now ≡ part self.entries (self.entries + WIDTH * self.count) s.now }
        ensures bodies { result.bodies.now ≡ rest self.bodies s.now }
    {
        let end = self.entries + WIDTH * self.count;
        Rows {
            left: self.count,
            entries: &s[self.entries..end],
            bodies: &s[self.bodies..],
        }
    }
}

// The sections of a schema, found once and handed to every search, with the limits that it was checked under.
#[derive(Clone, Copy)]
pub struct Sections {
    pub limits: Limits,
    pub entities: Section,
    pub actions: Section,
    pub functions: Section,
}

// Where the entries of all sections end and the bodies begin.
pub fn entries_end(s: &[u8]) -> usize
    requires { 6 ≤ length s.now }
    ensures { result ≡ entries_end s.now }
{
    Counts::BYTES
        + Width::ENTITY * u16_at(s, SchemaOffset::ENTITIES)
        + Width::ACTION * u16_at(s, SchemaOffset::ACTIONS)
        + Width::FUNCTION * u16_at(s, SchemaOffset::FUNCTIONS)
}

// The section of a kind, whose bodies start where it is said.
pub fn section_at(s: &[u8], kind: SectionKind, bodies: usize) -> Section
    requires { 6 ≤ length s.now }
    ensures { result ≡ section_at kind bodies s.now }
{
    let m = u16_at(s, SchemaOffset::ENTITIES);
    let n = u16_at(s, SchemaOffset::ACTIONS);
    let second = Counts::BYTES + Width::ENTITY * m;
    match kind {
        SectionKind::Entities => Section {
            count: m,
            entries: Counts::BYTES,
            bodies,
        },
        SectionKind::Actions => Section {
            count: n,
            entries: second,
            bodies,
        },
        SectionKind::Functions => Section {
            count: u16_at(s, SchemaOffset::FUNCTIONS),
            entries: second + Width::ACTION * n,
            bodies,
        },
    }
}

// Where the bodies of a section end whose entries and bodies are whole.
pub fn section_within(s: &[u8], kind: SectionKind, x: Section, limits: Limits) -> Option<usize>
    requires { Inside (row_of kind).width x s.now }
    ensures { result ≡ passed_by (as_limits limits) kind x s.now }
{
    match kind {
        SectionKind::Entities => rows_within::<{ Width::ENTITY }>(s, kind, x, limits),
        SectionKind::Actions => rows_within::<{ Width::ACTION }>(s, kind, x, limits),
        SectionKind::Functions => rows_within::<{ Width::FUNCTION }>(s, kind, x, limits),
    }
}

// The same, entry by entry, each of so many bytes.
pub fn rows_within<const WIDTH: usize>(
    s: &[u8],
    kind: SectionKind,
    x: Section,
    limits: Limits,
) -> Option<usize>
    requires wide { WIDTH ≡ (row_of kind).width }
    requires inside { Inside WIDTH x s.now }
    ensures { result ≡ passed_by (as_limits limits) kind x s.now }
{
    let mut rows: Rows<WIDTH> = x.rows(s);
    let mut low = Low::FIRST;
    while 0 < rows.left {
        let row = rows.take()?;
        if !kind.follows(row.head, low) {
            return None;
        }
        if !kind.body_within(row.head, row.body, limits) {
            return None;
        }
        low = kind.next(row.head);
    }
    Some(s.len() - rows.bodies.len())
}
