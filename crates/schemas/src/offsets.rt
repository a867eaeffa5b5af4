// What is kept of the check of a whole schema: where the bodies of each section start.
ghost use Rattle.std.specs.Prelude.{◌≡◌, Some};
ghost use Rattle.schemas.specs.SchemaBytes.{checked};
ghost use Rattle.schemas.specs.Offsets.{starts_of, offsets_of};

use crate::checked::Checked;
use crate::kinds::SectionKind;
use crate::sections::{Sections, section_at};
use forms::limits::Limits;

#[derive(Clone, Copy)]
pub struct Offsets {
    pub entities: usize,
    pub actions: usize,
    pub functions: usize,
}

impl Offsets {
    // The starts of sections.
    fn of(at: Sections) -> Offsets
        ensures { result ≡ starts_of «at» }
    {
        Offsets {
            entities: at.entities.bodies,
            actions: at.actions.bodies,
            functions: at.functions.bodies,
        }
    }

    // The sections of the schema that these were kept of.
    fn sections(self, limits: Limits, s: &[u8]) -> Sections
        requires { Some self ≡ offsets_of (checked limits s.now) }
        ensures { Some result ≡ checked limits s.now }
    {
        Sections {
            limits,
            entities: section_at(s, SectionKind::Entities, self.entities),
            actions: section_at(s, SectionKind::Actions, self.actions),
            functions: section_at(s, SectionKind::Functions, self.functions),
        }
    }
}

impl<'a> Checked<'a> {
    // What is kept of a check.
    pub fn offsets(&self) -> Option<Offsets>
        ensures { result ≡ offsets_of (checked self.now.limits self.now.bytes.now) }
    {
        let at = self.sections?;
        Some(Offsets::of(at))
    }

    // The check of a schema again, from what was kept of it.
    pub fn again(limits: Limits, s: &'a [u8], offsets: Option<Offsets>) -> Checked<'a>
        requires { offsets ≡ offsets_of (checked limits s.now) }
        ensures { (result.bytes ≡ s.entry) × (result.limits ≡ limits) }
    {
        let sections = match offsets {
            Some(at) => Some(at.sections(limits, s)),
            None => None,
        };
        Checked {
            bytes: s,
            limits,
            sections,
        }
    }
}
