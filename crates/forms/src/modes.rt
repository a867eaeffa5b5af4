// How strictly types are compared: `ValidationMode`, and loose.
ghost use Rattle.std.specs.Prelude.{◌≡◌};
ghost use Rattle.cedar.specs.Types.{is_permissive, is_loose};
ghost use Rattle.cedar.specs.Calls.{mode_of};
ghost use Rattle.forms.specs.Modes.{as_mode, mode_in};
ghost use Rattle.forms.specs.declared.refusals.Refusal.TheVariants as refusals;

use crate::refusals::Refusal;

#[derive(Clone, Copy, Debug, PartialEq, Eq)]
pub enum Mode {
    Strict,
    Permissive,
    Loose,
}

// A number that is no mode's.
#[derive(Clone, Copy, Debug, PartialEq, Eq)]
pub struct UnknownMode;

// The refusal of such a number.
impl From<UnknownMode> for Refusal {
    ghost from_gives = { λ unknown refusal. refusal ≡ refusals.Mode };

    fn from(_unknown: UnknownMode) -> Refusal {
        Refusal::Mode
    }
}

impl TryFrom<u8> for Mode {
    type Error = UnknownMode;

    ghost try_from_gives = { λ number result. mode_in result ≡ mode_of number };

    fn try_from(number: u8) -> Result<Mode, UnknownMode> {
        match number {
            0 => Ok(Mode::Strict),
            1 => Ok(Mode::Permissive),
            2 => Ok(Mode::Loose),
            _ => Err(UnknownMode),
        }
    }
}

impl Mode {
    // Whether the permissive rules hold.
    pub fn is_permissive(self) -> bool
        ensures { result ≡ is_permissive (as_mode self) }
    {
        matches!(self, Mode::Permissive | Mode::Loose)
    }

    // Whether sets of elements without a bound are joined.
    pub fn is_loose(self) -> bool
        ensures { result ≡ is_loose (as_mode self) }
    {
        self == Mode::Loose
    }
}
