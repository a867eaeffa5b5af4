// The limits of forms.
ghost use Rattle.std.specs.Prelude.{◌≡◌};
ghost use Rattle.cedar.specs.Limits.{standard, allowed};
ghost use Rattle.forms.specs.Limits.{as_limits};

// What a call is asked with: how many levels a type or a value may have, and how many bytes; an answer has no more bytes either.
#[derive(Clone, Copy)]
pub struct Limits {
    pub levels: usize,
    pub bytes: usize,
}

impl Limits {
    // What the programs use.
    pub const LEVELS: usize = 16;

    pub const BYTES: usize = 4096;

    // The ends of the ranges.
    pub const FEWEST_LEVELS: usize = 1;

    pub const MOST_LEVELS: usize = 32;

    pub const FEWEST_BYTES: usize = 64;

    pub const MOST_BYTES: usize = 8192;

    // A schema or a list.
    pub const BLOCK_BYTES: usize = 32768;

    pub const ENTITIES: usize = 256;

    pub const ACTIONS: usize = 256;

    pub const FUNCTIONS: usize = 64;

    pub const LISTED: usize = 64;

    // The limits that the programs use.
    pub fn standard() -> Limits
        ensures { as_limits result ≡ standard }
    {
        Limits {
            levels: Limits::LEVELS,
            bytes: Limits::BYTES,
        }
    }

    // Whether both limits are within their ranges.
    pub fn are_allowed(self) -> bool
        ensures { result ≡ allowed (as_limits self) }
    {
        if self.levels < Limits::FEWEST_LEVELS {
            return false;
        }
        if Limits::MOST_LEVELS < self.levels {
            return false;
        }
        if self.bytes < Limits::FEWEST_BYTES {
            return false;
        }
        self.bytes <= Limits::MOST_BYTES
    }
}
