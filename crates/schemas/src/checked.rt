// A schema that was checked.
ghost use Rattle.std.specs.Prelude.{ℕ, ◌≡◌, ◌<◌, get_or};
ghost use Rattle.schemas.specs.SchemaBytes.{checked};

use crate::sections::Sections;
use crate::whole::check_schema;
use forms::limits::Limits;

// A schema's bytes, the limits that they were checked under, and their sections if they are a whole schema within these. Within limits out
// of their ranges nothing is whole. It takes 128 bytes: entries that ask little of it are inlined where it is made, so that a call
// on a small type is not spent on copying it.
#[derive(Clone, Copy)]
pub struct Checked<'a> {
    pub bytes: &'a [u8],
    pub limits: Limits,
    pub sections: Option<Sections>,
    pub ghost fit: { (i : ℕ) → get_or bytes.now i 0 < 256 },
    pub ghost own_check: { sections ≡ checked limits bytes.now },
}

impl<'a> Checked<'a> {
    // Checks a schema under limits.
    #[inline]
    pub fn new(limits: Limits, s: &'a [u8]) -> Checked<'a>
        ensures { (result.bytes ≡ s.entry) × (result.limits ≡ limits) }
    {
        let sections = check_schema(limits, s);
        Checked {
            bytes: s,
            limits,
            sections,
        }
    }
}
