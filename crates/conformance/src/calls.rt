// Function calls as values of an extension, and the arguments of calls.
ghost use Rattle.std.specs.Prelude.{◌≡◌, true, ◌≤◌, length};
ghost use Rattle.cedar.specs.ValueForm.{call_kind};
ghost use Rattle.cedar.specs.Conformance.{of_argument, of_arguments, is_extension};
ghost use Rattle.forms.specs.Parts.{rd};
ghost use Rattle.schemas.specs.Schema.{said_by};
ghost use Rattle.schemas.specs.SchemaBytes.{arg_fits, arg_at, args_fit, args_of};
ghost use Rattle.forms.specs.ValueBytes.{whole_v_as, whole_v, dec_v};
ghost use Rattle.conformance.specs.Walks.{arguments_of};
ghost use Rattle.conformance.specs.Counts.{counts_of};
ghost use Rattle.conformance.specs.Verdicts.{verdict_of};

use crate::counts::{Under, left_over};
use crate::kinds::takes_kind;
use crate::verdicts::{Verdict, inside, tested};
use forms::kinds::{ArgumentKind, Kind, ValueKind};
use forms::numbers::u16_at;
use forms::offsets::{SchemaOffset, ValueOffset};
use forms::rows::Rows;
use forms::widths::Width;

// Whether a call, with parts of so many levels, is a value of the extension: its function is known, returns it, and the arguments fit.
#[cycle(argument_fits_arguments_fit_call_returns)]
pub fn call_returns(under: &Under, v: &[u8], extension: usize, levels: usize) -> Verdict
    requires { whole_v_as (whole_v levels) call_kind v.now ≡ true }
    ensures { result ≡ verdict_of (is_extension (counts_of under.now.counts) (said_by under.now.schema) extension (rd v.now 1, arguments_of levels v.now)) }
{
    let name = u16_at(v, ValueOffset::FUNCTION);
    let Some(function) = under.schema.find_function(name) else {
        return Verdict::Unknown;
    };
    let Some(returned) = function.returns else {
        return Verdict::Fails;
    };
    if returned != extension {
        return Verdict::Fails;
    }
    arguments_fit(under, function.arguments, v, levels)
}

// Whether the arguments of a call fit those asked for: pairwise to the shorter end, then their count.
#[cycle(argument_fits_arguments_fit_call_returns)]
fn arguments_fit(under: &Under, asked: &[u8], v: &[u8], levels: usize) -> Verdict
    requires asked_fit { args_fit asked.now ≡ true }
    requires v_whole { whole_v_as (whole_v levels) call_kind v.now ≡ true }
    ensures { result ≡ verdict_of (of_arguments (counts_of under.now.counts) (said_by under.now.schema) (arguments_of levels v.now) (args_of asked.now)) }
{
    let mut arguments: Rows<{ Width::MEMBER }> = Rows::at(v, ValueOffset::CALL_COUNT);
    let mut left = asked;
    while let Some(argument) = arguments.next() {
        let Some((first, others)) = left.split_at_checked(Width::ARGUMENT) else {
            return left_over(under.counts);
        };
        let said = argument_fits(under, first, argument.body, levels);
        let Verdict::Holds = said else {
            return said;
        };
        left = others;
    }
    if !left.is_empty() {
        return left_over(under.counts);
    }
    Verdict::Holds
}

// Whether a value fits the first of the arguments asked for: a kind of value, or a call that returns an extension.
#[cycle(argument_fits_arguments_fit_call_returns)]
fn argument_fits(under: &Under, asked: &[u8], v: &[u8], levels: usize) -> Verdict
    requires in_bounds { (3 ≤ length asked.now) × (arg_fits asked.now ≡ true) }
    requires v_whole { whole_v levels v.now ≡ true }
    ensures { result ≡ verdict_of (of_argument (counts_of under.now.counts) (said_by under.now.schema) (dec_v levels v.now) (arg_at asked.now)) }
{
    let kind = ValueKind::of(v);
    match ArgumentKind::of(asked) {
        ArgumentKind::Bool => tested(takes_kind(Kind::Bool, kind)),
        ArgumentKind::Long => tested(takes_kind(Kind::Long, kind)),
        ArgumentKind::String => tested(takes_kind(Kind::String, kind)),
        ArgumentKind::Extension => {
            if !takes_kind(Kind::Extension, kind) {
                return Verdict::Fails;
            }
            let name = u16_at(asked, SchemaOffset::ARGUMENT_EXTENSION);
            inside(call_returns(under, v, name, levels - 1))
        }
    }
}
