// A call put to its entry.
use crate::calls::{Bodies, Call, LARGEST};
use crate::print::{print_left, print_part};
use forms::refusals::Refusal;
use jobs::Operation;
use streams::Stopped;
use validator::all_attributes::all_attributes;
use validator::answers::Answer;
use validator::are_types_disjoint::are_types_disjoint;
use validator::convert::convert;
use validator::euid_literal::euid_literal;
use validator::is_consistent_with::is_consistent_with;
use validator::is_subtype::is_subtype;
use validator::least_upper_bound::least_upper_bound;
use validator::lookup_attribute_type::lookup_attribute_type;
use validator::may_have_attr::may_have_attr;
use validator::measure_type::measure_type;
use validator::measure_value::measure_value;
use validator::own_attribute_type::{own_attribute_part, own_attribute_type};
use validator::reduce_to_least_upper_bound::reduce_to_least_upper_bound;
use validator::typecheck_restricted_expr::{
    typecheck_restricted_expr, typecheck_restricted_expr_exact,
};

// What an entry is asked: the second entry of lookup, measuring, or what a question of a job asks.
#[derive(Clone, Copy)]
enum Asked {
    OwnAttribute,
    MeasureType,
    MeasureValue,
    OfJob(Operation),
}

impl From<u8> for Asked {
    fn from(n: u8) -> Asked {
        match n {
            255 => Asked::OwnAttribute,
            254 => Asked::MeasureType,
            253 => Asked::MeasureValue,
            _ => Asked::OfJob(Operation::try_from(n).unwrap_or(Operation::Full)),
        }
    }
}

// What stands in the buffers before a call.
const UNTOUCHED: u8 = 165;

// The answer of the entry of an operation.
fn answer(
    operation: Operation,
    call: Call,
    given: Bodies<'_>,
    out: &mut [u8],
    work: &mut [u8],
) -> Result<Answer, Refusal> {
    let Bodies {
        schema,
        first,
        second,
    } = given;
    let Call {
        mode,
        attribute,
        limits,
        ..
    } = call;
    match operation {
        Operation::Subtype => is_subtype(limits, mode, schema, first, second),
        Operation::Bound => least_upper_bound(limits, mode, schema, first, second, out),
        Operation::Disjoint => are_types_disjoint(limits, first, second),
        Operation::Lookup => lookup_attribute_type(limits, schema, attribute, first, out, work),
        Operation::MayHave => may_have_attr(limits, schema, attribute, first),
        Operation::Names => all_attributes(limits, schema, first, out, work),
        Operation::Consistent => is_consistent_with(limits, first, second),
        Operation::Convert => convert(limits, first, out),
        Operation::Conforms => typecheck_restricted_expr(limits, schema, first, second),
        Operation::Fold => reduce_to_least_upper_bound(limits, mode, schema, first, out, work),
        Operation::Literal => euid_literal(limits, schema, first, out),
        Operation::Full => typecheck_restricted_expr_exact(limits, schema, first, second),
    }
}

// Puts a call to the second entry of lookup, and prints its line.
fn ask_own(rt: &HostRuntime, call: Call, given: Bodies<'_>) -> Result<(), Stopped> {
    let mut told = UNTOUCHED;
    let part = own_attribute_type(
        call.limits,
        given.schema,
        call.attribute,
        given.first,
        &mut told,
    );
    let place = own_attribute_part(call.limits, given.schema, call.attribute, given.first);
    print_part(rt, told, place, part)
}

// Puts a call to its entry, and prints its line.
pub(crate) fn ask(rt: &HostRuntime, call: Call, given: Bodies<'_>) -> Result<(), Stopped> {
    let mut out = [UNTOUCHED; LARGEST];
    let mut work = [UNTOUCHED; LARGEST];
    let out = &mut out[..usize::from(call.room)];
    let work = &mut work[..usize::from(call.workspace)];
    let answer = match Asked::from(call.operation) {
        Asked::OwnAttribute => return ask_own(rt, call, given),
        Asked::MeasureType => measure_type(call.limits, given.first),
        Asked::MeasureValue => measure_value(call.limits, given.first),
        Asked::OfJob(operation) => answer(operation, call, given, out, work),
    };
    print_left(rt, answer, &[out, work])
}
