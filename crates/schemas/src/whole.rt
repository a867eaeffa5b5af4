// Whether bytes are a whole schema.
ghost use Rattle.std.specs.Prelude.{◌≡◌, None, MatchOption};
ghost use Rattle.schemas.specs.SchemaBytes.{head_fits, checked_within, checked};
ghost use Rattle.schemas.specs.Schema.{OfCheck};

use crate::checked::Checked;
use crate::kinds::SectionKind;
use crate::schema::Schema;
use crate::sections::{Counts, Sections, entries_end, section_at, section_within};
use forms::limits::Limits;
use forms::numbers::u16_at;
use forms::offsets::SchemaOffset;

// Whether the counts are within their limits and the entries within the bytes.
fn counts_within(s: &[u8]) -> bool
    ensures { result ≡ head_fits s.now }
{
    Counts::BYTES <= s.len()
        && u16_at(s, SchemaOffset::ENTITIES) <= Limits::ENTITIES
        && u16_at(s, SchemaOffset::ACTIONS) <= Limits::ACTIONS
        && u16_at(s, SchemaOffset::FUNCTIONS) <= Limits::FUNCTIONS
        && entries_end(s) <= s.len()
}

// The sections of a schema that is whole within the limits.
fn sections_within(s: &[u8], limits: Limits) -> Option<Sections>
    ensures { result ≡ checked_within limits s.now }
{
    if Limits::BLOCK_BYTES < s.len() {
        return None;
    }
    if !counts_within(s) {
        return None;
    }
    let entities = section_at(s, SectionKind::Entities, entries_end(s));
    let second = section_within(s, SectionKind::Entities, entities, limits)?;
    let actions = section_at(s, SectionKind::Actions, second);
    let third = section_within(s, SectionKind::Actions, actions, limits)?;
    let functions = section_at(s, SectionKind::Functions, third);
    let end = section_within(s, SectionKind::Functions, functions, limits)?;
    if end != s.len() {
        return None;
    }
    Some(Sections {
        limits,
        entities,
        actions,
        functions,
    })
}

// The sections of a schema that is whole within limits that are allowed.
#[inline(never)]
pub fn check_schema(limits: Limits, s: &[u8]) -> Option<Sections>
    ensures { result ≡ checked limits s.now }
{
    if !limits.are_allowed() {
        return None;
    }
    sections_within(s, limits)
}

impl<'a> Checked<'a> {
    // The schema, if it is whole.
    pub fn whole(&self) -> Option<Schema<'a>>
        ensures { MatchOption result (self.now.sections ≡ None) (OfCheck self.now) }
    {
        let sections = self.sections?;
        Some(Schema {
            bytes: self.bytes,
            sections,
        })
    }
}
