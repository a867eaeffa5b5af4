// The calls on a schema that was checked before: `check` is the number that `tirncheav_check_schema` gave for the same bytes, and tells
// the limits that it was checked under.
ghost use Rattle.std.specs.Prelude.{◌≡◌, length};
ghost use Rattle.cedar.specs.BodyPlace.{body_in};
ghost use Rattle.cedar.specs.Calls.{subtype_call, bound_call, fold_call, lookup_call, own_attribute_call, may_have_call, names_call, literal_call, conforms_call, full_call};
ghost use Rattle.forms.specs.Limits.{as_limits};
ghost use Rattle.validator.specs.Answers.{answer_of};
ghost use Rattle.validator.specs.Handed.{part_of};
ghost use Rattle.exports.specs.Checks.{check_number, limits_in};
ghost use Rattle.exports.specs.Numbers.{answer_number, Numbered, NumberedIn, part_number};

use crate::checks::check_again;
use crate::numbers::{answer_number, part_number};
use validator::all_attributes::all_attributes_checked;
use validator::euid_literal::euid_literal_checked;
use validator::is_subtype::is_subtype_checked;
use validator::least_upper_bound::least_upper_bound_checked;
use validator::lookup_attribute_type::lookup_attribute_type_checked;
use validator::may_have_attr::may_have_attr_checked;
use validator::own_attribute_type::own_attribute_part_checked;
use validator::reduce_to_least_upper_bound::reduce_to_least_upper_bound_checked;
use validator::typecheck_restricted_expr::{
    typecheck_restricted_expr_checked, typecheck_restricted_expr_exact_checked,
};

// Whether a type is a subtype of another.
#[unsafe(no_mangle)]
pub extern "C" fn tirncheav_is_subtype_checked(
    schema: &[u8],
    check: u64,
    mode: u8,
    t0: &[u8],
    t1: &[u8],
) -> u64
    requires { check ≡ check_number (limits_in check) schema.now }
    ensures { result ≡ answer_number (answer_of (subtype_call (as_limits (limits_in check)) mode schema.now t0.now t1.now)) }
{
    answer_number(is_subtype_checked(&check_again(schema, check), mode, t0, t1))
}

// The least upper bound of two types.
#[unsafe(no_mangle)]
pub extern "C" fn tirncheav_least_upper_bound_checked(
    schema: &[u8],
    check: u64,
    mode: u8,
    t0: &[u8],
    t1: &[u8],
    out: &mut [u8],
) -> u64
    requires { check ≡ check_number (limits_in check) schema.now }
    ensures { Numbered (bound_call (as_limits (limits_in check)) mode schema.now t0.now t1.now (length out.old)) out.old out.new result }
{
    answer_number(least_upper_bound_checked(&check_again(schema, check), mode, t0, t1, out))
}

// The least upper bound of a list of types.
#[unsafe(no_mangle)]
pub extern "C" fn tirncheav_reduce_to_least_upper_bound_checked(
    schema: &[u8],
    check: u64,
    mode: u8,
    list: &[u8],
    out: &mut [u8],
    work: &mut [u8],
) -> u64
    requires { check ≡ check_number (limits_in check) schema.now }
    ensures { NumberedIn (fold_call (as_limits (limits_in check)) mode schema.now list.now (length out.old) (length work.old)) out.old out.new work.old work.new result }
{
    answer_number(reduce_to_least_upper_bound_checked(
        &check_again(schema, check),
        mode,
        list,
        out,
        work,
    ))
}

// The attribute of a type, with its required flag.
#[unsafe(no_mangle)]
pub extern "C" fn tirncheav_lookup_attribute_type_checked(
    schema: &[u8],
    check: u64,
    attr: u16,
    t: &[u8],
    out: &mut [u8],
    work: &mut [u8],
) -> u64
    requires { check ≡ check_number (limits_in check) schema.now }
    ensures { NumberedIn (lookup_call (as_limits (limits_in check)) schema.now attr t.now (length out.old) (length work.old)) out.old out.new work.old work.new result }
{
    answer_number(lookup_attribute_type_checked(&check_again(schema, check), attr, t, out, work))
}

// The attribute of a record or an action, as a part of t.
#[unsafe(no_mangle)]
pub extern "C" fn tirncheav_own_attribute_type_checked(
    schema: &[u8],
    check: u64,
    attr: u16,
    t: &[u8],
) -> u64
    requires { check ≡ check_number (limits_in check) schema.now }
    ensures { result ≡ part_number (part_of (own_attribute_call (as_limits (limits_in check)) schema.now attr t.now) (body_in (as_limits (limits_in check)) attr t.now)) }
{
    part_number(own_attribute_part_checked(&check_again(schema, check), attr, t))
}

// Whether a value of a type might have an attribute.
#[unsafe(no_mangle)]
pub extern "C" fn tirncheav_may_have_attr_checked(
    schema: &[u8],
    check: u64,
    attr: u16,
    t: &[u8],
) -> u64
    requires { check ≡ check_number (limits_in check) schema.now }
    ensures { result ≡ answer_number (answer_of (may_have_call (as_limits (limits_in check)) schema.now attr t.now)) }
{
    answer_number(may_have_attr_checked(&check_again(schema, check), attr, t))
}

// The names of a type's attributes.
#[unsafe(no_mangle)]
pub extern "C" fn tirncheav_all_attributes_checked(
    schema: &[u8],
    check: u64,
    t: &[u8],
    out: &mut [u8],
    work: &mut [u8],
) -> u64
    requires { check ≡ check_number (limits_in check) schema.now }
    ensures { NumberedIn (names_call (as_limits (limits_in check)) schema.now t.now (length out.old) (length work.old)) out.old out.new work.old work.new result }
{
    answer_number(all_attributes_checked(&check_again(schema, check), t, out, work))
}

// Has a value a type under a schema?
#[unsafe(no_mangle)]
pub extern "C" fn tirncheav_typecheck_restricted_expr_checked(
    schema: &[u8],
    check: u64,
    t: &[u8],
    v: &[u8],
) -> u64
    requires { check ≡ check_number (limits_in check) schema.now }
    ensures { result ≡ answer_number (answer_of (conforms_call (as_limits (limits_in check)) schema.now t.now v.now)) }
{
    answer_number(typecheck_restricted_expr_checked(&check_again(schema, check), t, v))
}

// Has a value a type under a schema, each call with as many arguments as its function declares?
#[unsafe(no_mangle)]
pub extern "C" fn tirncheav_typecheck_restricted_expr_exact_checked(
    schema: &[u8],
    check: u64,
    t: &[u8],
    v: &[u8],
) -> u64
    requires { check ≡ check_number (limits_in check) schema.now }
    ensures { result ≡ answer_number (answer_of (full_call (as_limits (limits_in check)) schema.now t.now v.now)) }
{
    answer_number(typecheck_restricted_expr_exact_checked(&check_again(schema, check), t, v))
}

// The type of a uid.
#[unsafe(no_mangle)]
pub extern "C" fn tirncheav_euid_literal_checked(
    schema: &[u8],
    check: u64,
    v: &[u8],
    out: &mut [u8],
) -> u64
    requires { check ≡ check_number (limits_in check) schema.now }
    ensures { Numbered (literal_call (as_limits (limits_in check)) schema.now v.now (length out.old)) out.old out.new result }
{
    answer_number(euid_literal_checked(&check_again(schema, check), v, out))
}
