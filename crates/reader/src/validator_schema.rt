// A schema that is checked once and kept with its block.
ghost use Rattle.std.specs.Prelude.{ℕ, ◌≡◌, ◌<◌, get_or};
ghost use Rattle.reader.specs.Own.{OwnCheck};

use forms::limits::Limits;
use schemas::checked::Checked;
use schemas::offsets::Offsets;

// The block, the limits that it was checked under, and where the bodies of each of its sections start: none where it is no whole schema.
#[derive(Clone, Copy)]
pub struct ValidatorSchema<'a> {
    pub block: &'a [u8],
    pub limits: Limits,
    pub offsets: Option<Offsets>,
    pub ghost own_check: { OwnCheck block.now limits offsets },
}

impl<'a> ValidatorSchema<'a> {
    // A block, with what its check under these limits found.
    pub fn new(limits: Limits, block: &'a [u8]) -> ValidatorSchema<'a>
        ensures { (result.block ≡ block.entry) × (result.limits ≡ limits) }
    {
        let offsets = Checked::new(limits, block).offsets();
        ValidatorSchema {
            block,
            limits,
            offsets,
        }
    }

    // The block.
    pub fn block(self) -> &'a [u8]
        ensures { result ≡ self.entry.block }
    {
        self.block
    }

    // What a function that takes a check asks for: the block as it was checked.
    pub fn check(self) -> Checked<'a>
        ensures { (result.bytes ≡ self.entry.block) × (result.limits ≡ self.entry.limits) }
    {
        Checked::again(self.limits, self.block, self.offsets)
    }
}
