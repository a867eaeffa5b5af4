// The kinds of section, and where they differ: how wide entries are, which may follow, and what their bodies are.
ghost use Rattle.std.specs.Prelude.{◌≡◌, ◌≤◌, length};
ghost use Rattle.forms.specs.Limits.{as_limits};
ghost use Rattle.schemas.specs.SchemaBytes.{row_of, body_test, low_in};

use crate::arguments::arguments_within;
use crate::bodies::body_within;
use crate::order::{Low, action_follows, entity_follows, function_follows};
use forms::kinds::EntityKind;
use forms::limits::Limits;
use forms::numbers::u16_at;
use forms::offsets::SchemaOffset;
use forms::widths::Width;

#[derive(Clone, Copy)]
pub enum SectionKind {
    Entities,
    Actions,
    Functions,
}

impl SectionKind {
    // How many bytes an entry takes.
    pub fn width(self) -> usize
        ensures { result ≡ (row_of self).width }
    {
        match self {
            SectionKind::Entities => Width::ENTITY,
            SectionKind::Actions => Width::ACTION,
            SectionKind::Functions => Width::FUNCTION,
        }
    }

    // Whether an entry may follow.
    pub fn follows(self, e: &[u8], low: Low) -> bool
        requires { (row_of self).width ≤ length e.now }
        ensures { result ≡ (row_of self).ok (low_in self low) e.now }
    {
        match self {
            SectionKind::Entities => entity_follows(e, low.name),
            SectionKind::Actions => action_follows(e, low.name, low.id),
            SectionKind::Functions => function_follows(e, low.name),
        }
    }

    // What the entry behind this one goes by.
    pub fn next(self, e: &[u8]) -> Low
        requires { (row_of self).width ≤ length e.now }
        ensures { low_in self result ≡ (row_of self).next e.now }
    {
        let name = u16_at(e, 0);
        match self {
            SectionKind::Entities => Low {
                name: name + 1,
                id: 0,
            },
            SectionKind::Actions => Low {
                name,
                id: u16_at(e, SchemaOffset::ACTION_ID) + 1,
            },
            SectionKind::Functions => Low {
                name: name + 1,
                id: 0,
            },
        }
    }

    // Whether the body of an entry is whole.
    pub fn body_within(self, e: &[u8], b: &[u8], limits: Limits) -> bool
        requires { (row_of self).width ≤ length e.now }
        ensures { result ≡ body_test (as_limits limits) self ((row_of self).head e.now) b.now }
    {
        match self {
            SectionKind::Entities => {
                body_within(
                    b,
                    EntityKind::try_from(e[SchemaOffset::ENTITY_KIND])
                        == Ok(EntityKind::Enumerated),
                    limits,
                )
            }
            SectionKind::Actions => body_within(b, true, limits),
            SectionKind::Functions => arguments_within(b),
        }
    }
}
