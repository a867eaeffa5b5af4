// One step of a fold: a bound written into a half of the workspace.
ghost use Rattle.std.specs.Prelude.{◌≡◌, true, ◌≤◌, length};
ghost use Rattle.cedar.specs.Bound.{bound};
ghost use Rattle.cedar.specs.Laws.DirectBound.{direct};
ghost use Rattle.cedar.specs.Outcome.{over};
ghost use Rattle.cedar.specs.TypeForm.{enc};
ghost use Rattle.forms.specs.Parts.{part};
ghost use Rattle.forms.specs.TypeBytes.{whole, dec};
ghost use Rattle.forms.specs.Limits.{as_limits};
ghost use Rattle.forms.specs.Modes.{as_mode};
ghost use Rattle.writing.specs.FormLengths.{form_of, Ready};
ghost use Rattle.folds.specs.Steps.{Held, Stepped, refusal_of};

use bound_lengths::bound_length::bound_length;
use bounds::bound_writes::write_bound;
use forms::limits::Limits;
use forms::modes::Mode;
use forms::refusals::Refusal;
use forms::type_forms::TypeForm;
use relations::is_subtype::is_subtype;
use writing::writers::copy;

// Why a step leads to no bound: there is none, for a reason, or it is too long.
#[derive(Clone, Copy, Debug, PartialEq, Eq)]
pub enum NoStep {
    Unbounded(Refusal),
    TooLong,
}

// The refusal of a fold that ends so.
impl From<NoStep> for Refusal {
    ghost from_gives = { λ no_step refusal. refusal ≡ refusal_of no_step };

    fn from(no_step: NoStep) -> Refusal {
        match no_step {
            NoStep::Unbounded(reason) => reason,
            NoStep::TooLong => Refusal::Workspace,
        }
    }
}

// The bound of the type in the first bytes of `last` and another, of so many bytes: written into a room, then copied to `last`.
fn write_through(
    mode: Mode,
    last: &mut [u8],
    len: usize,
    t: &[u8],
    levels: usize,
    n: usize,
    room: &mut [u8],
)
    requires last_room { (len ≤ length last.old) × (n ≤ length last.old) }
    requires last_whole { whole levels (part 0 len last.old) ≡ true }
    requires t_whole { whole levels t.now ≡ true }
    requires ready { Ready enc (direct (as_mode mode) (dec levels (part 0 len last.old)) (dec levels t.now)) room.old }
    requires exact { n ≡ length (form_of enc (direct (as_mode mode) (dec levels (part 0 len last.old)) (dec levels t.now))) }
    ensures { last.new ≡ over (form_of enc (direct (as_mode mode) (dec levels (part 0 len last.old)) (dec levels t.now))) last.old }
{
    write_bound(mode, &last[0..len], t, levels, Some(n), &mut room[0..]);
    copy(&room[0..n], last);
}

// The bound of the type in the first bytes of `last` and another, by way of a half of the workspace. Each step reads the copy in
// `last`, so that one half alone is lent.
fn write_step(
    mode: Mode,
    last: &mut [u8],
    len: usize,
    t: &[u8],
    limits: Limits,
    second: bool,
    work: &mut [u8],
) -> Result<usize, NoStep>
    requires held { Held (as_limits limits) len last.old }
    requires t_whole { whole limits.levels t.now ≡ true }
    ensures { Stepped (as_limits limits) (bound (as_mode mode) (dec limits.levels (part 0 len last.old)) (dec limits.levels t.now)) (length work.old) last.new result }
{
    let half = work.len() / 2;
    let levels = limits.levels;
    let joined = TypeForm {
        levels,
        bytes: &last[0..len],
    };
    let n = match bound_length(mode, joined, TypeForm { levels, bytes: t }) {
        Ok(n) => n,
        Err(reason) => return Err(NoStep::Unbounded(reason)),
    };
    if half.min(limits.bytes) < n {
        return Err(NoStep::TooLong);
    }
    if second {
        write_through(mode, last, len, t, limits.levels, n, &mut work[half..]);
    } else {
        write_through(mode, last, len, t, limits.levels, n, &mut work[..half]);
    }
    Ok(n)
}

// One step: the type in the first bytes of `last` stays where the other is under it; else their bound is written in its place.
pub fn join_step(
    mode: Mode,
    last: &mut [u8],
    len: usize,
    t: &[u8],
    limits: Limits,
    second: bool,
    work: &mut [u8],
) -> Result<usize, NoStep>
    requires held { Held (as_limits limits) len last.old }
    requires t_whole { whole limits.levels t.now ≡ true }
    ensures { Stepped (as_limits limits) (bound (as_mode mode) (dec limits.levels (part 0 len last.old)) (dec limits.levels t.now)) (length work.old) last.new result }
{
    let lower = TypeForm {
        levels: limits.levels,
        bytes: t,
    };
    let upper = TypeForm {
        levels: limits.levels,
        bytes: &last[0..len],
    };
    if !is_subtype(mode, lower, upper) {
        return write_step(mode, last, len, t, limits, second, work);
    }
    if work.len() / 2 < len {
        return Err(NoStep::TooLong);
    }
    Ok(len)
}
