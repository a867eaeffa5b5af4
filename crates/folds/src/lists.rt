// The fold of a list of types.
ghost use Rattle.std.specs.Prelude.{length};
ghost use Rattle.cedar.specs.Fold.{fold_from, fold_types};
ghost use Rattle.cedar.specs.Calls.{step_fits};
ghost use Rattle.forms.specs.Parts.{part};
ghost use Rattle.forms.specs.TypeBytes.{dec};
ghost use Rattle.forms.specs.ListBytes.{SoundTs, dec_ts, list_of};
ghost use Rattle.forms.specs.Limits.{as_limits};
ghost use Rattle.forms.specs.Modes.{as_mode};
ghost use Rattle.folds.specs.Steps.{Held};
ghost use Rattle.folds.specs.Lists.{Opened, FoldsTo};

use crate::steps::join_step;
use forms::kinds::Kind;
use forms::limits::Limits;
use forms::modes::Mode;
use forms::offsets::Offset;
use forms::refusals::Refusal;
use forms::rows::Rows;
use forms::widths::Width;

// Folds types onto the type in the first bytes of `last`.
fn fold_onto(
    mode: Mode,
    last: &mut [u8],
    len: usize,
    mut types: Rows<{ Width::MEMBER }>,
    limits: Limits,
    work: &mut [u8],
) -> Result<usize, Refusal>
    requires held { Held (as_limits limits) len last.old }
    requires sound_ts { SoundTs (as_limits limits) types.left types.entries.now types.bodies.now }
    ensures { FoldsTo (as_limits limits) (fold_from (step_fits (as_limits limits) (length work.old)) (as_mode mode) (dec limits.levels (part 0 len last.old)) (dec_ts limits.levels types.entry.left types.entry.entries.now types.entry.bodies.now)) last.new result }
{
    let mut to = len;
    let mut second = true;
    while let Some(row) = types.next() {
        to = join_step(mode, last, to, row.body, limits, second, work)?;
        second = !second;
    }
    Ok(to)
}

// The fold of a list, from Never; its form is left in the first bytes of `last`.
pub fn fold_types(
    mode: Mode,
    list: &[u8],
    limits: Limits,
    last: &mut [u8],
    work: &mut [u8],
) -> Result<usize, Refusal>
    requires { Opened (as_limits limits) list.now last.old }
    ensures { FoldsTo (as_limits limits) (fold_types (step_fits (as_limits limits) (length work.old)) (as_mode mode) (list_of limits.levels list.now)) last.new result }
{
    last[0] = Kind::Never as u8;
    fold_onto(mode, last, Offset::ELEMENT, Rows::at(list, 0), limits, work)
}
