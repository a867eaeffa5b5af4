// The calls on a schema that was checked before, with the questions of the others.
ghost use Rattle.std.specs.Prelude.{◌≡◌};
ghost use Rattle.exports.specs.Checks.{check_number, limits_in};

use crate::print::print_line;
use exports::checked_calls::{
    tirncheav_all_attributes_checked, tirncheav_euid_literal_checked, tirncheav_is_subtype_checked,
    tirncheav_least_upper_bound_checked, tirncheav_lookup_attribute_type_checked,
    tirncheav_may_have_attr_checked, tirncheav_own_attribute_type_checked,
    tirncheav_reduce_to_least_upper_bound_checked, tirncheav_typecheck_restricted_expr_checked,
    tirncheav_typecheck_restricted_expr_exact_checked,
};
use exports::checks::tirncheav_check_schema;
use forms::limits::Limits;
use streams::Stopped;
use trial::{Form, result, workspace};

// The check of a schema under the standard limits, as a caller keeps it.
fn kept(schema: &[u8]) -> u64
    ensures { result ≡ check_number (limits_in result) schema.now }
{
    tirncheav_check_schema(Limits::LEVELS, Limits::BYTES, schema)
}

fn ask_check(rt: &HostRuntime, schema: &[u8]) -> Result<(), Stopped> {
    let n = kept(schema);
    print_line(rt, "check_schema", n, &[])
}

fn ask_subtype(rt: &HostRuntime, schema: &[u8]) -> Result<(), Stopped> {
    let check = kept(schema);
    let n = tirncheav_is_subtype_checked(schema, check, 1, &Form::ENTITY_2, &Form::BOTH);
    print_line(rt, "is_subtype_checked", n, &[])
}

fn ask_bound(rt: &HostRuntime, schema: &[u8], t0: &[u8], t1: &[u8]) -> Result<(), Stopped> {
    let check = kept(schema);
    let mut out = result();
    let n = tirncheav_least_upper_bound_checked(schema, check, 1, t0, t1, &mut out);
    print_line(rt, "least_upper_bound_checked", n, &[&out])
}

fn ask_fold(rt: &HostRuntime, schema: &[u8]) -> Result<(), Stopped> {
    let check = kept(schema);
    let mut out = result();
    let mut work = workspace();
    let n = tirncheav_reduce_to_least_upper_bound_checked(
        schema,
        check,
        1,
        &Form::LIST,
        &mut out,
        &mut work,
    );
    print_line(rt, "reduce_to_least_upper_bound_checked", n, &[&out, &work])
}

fn ask_lookup(rt: &HostRuntime, schema: &[u8]) -> Result<(), Stopped> {
    let check = kept(schema);
    let mut out = result();
    let mut work = workspace();
    let n = tirncheav_lookup_attribute_type_checked(
        schema,
        check,
        1,
        &Form::BOTH,
        &mut out,
        &mut work,
    );
    print_line(rt, "lookup_attribute_type_checked", n, &[&out, &work])
}

fn ask_own(rt: &HostRuntime, schema: &[u8]) -> Result<(), Stopped> {
    let check = kept(schema);
    let n = tirncheav_own_attribute_type_checked(schema, check, 1, &Form::RECORD);
    print_line(rt, "own_attribute_type_checked", n, &[])
}

fn ask_may_have(rt: &HostRuntime, schema: &[u8]) -> Result<(), Stopped> {
    let check = kept(schema);
    let n = tirncheav_may_have_attr_checked(schema, check, 1, &Form::ENTITY_2);
    print_line(rt, "may_have_attr_checked", n, &[])
}

fn ask_names(rt: &HostRuntime, schema: &[u8]) -> Result<(), Stopped> {
    let check = kept(schema);
    let mut out = result();
    let mut work = workspace();
    let n = tirncheav_all_attributes_checked(schema, check, &Form::BOTH, &mut out, &mut work);
    print_line(rt, "all_attributes_checked", n, &[&out, &work])
}

fn ask_conforms(rt: &HostRuntime, schema: &[u8], t: &[u8], v: &[u8]) -> Result<(), Stopped> {
    let check = kept(schema);
    let n = tirncheav_typecheck_restricted_expr_checked(schema, check, t, v);
    print_line(rt, "typecheck_restricted_expr_checked", n, &[])
}

fn ask_full(rt: &HostRuntime, schema: &[u8], t: &[u8], v: &[u8]) -> Result<(), Stopped> {
    let check = kept(schema);
    let n = tirncheav_typecheck_restricted_expr_exact_checked(schema, check, t, v);
    print_line(rt, "typecheck_restricted_expr_exact_checked", n, &[])
}

fn ask_literal(rt: &HostRuntime, schema: &[u8]) -> Result<(), Stopped> {
    let check = kept(schema);
    let mut out = result();
    let n = tirncheav_euid_literal_checked(schema, check, &Form::UID_3, &mut out);
    print_line(rt, "euid_literal_checked", n, &[&out])
}

// Each of them once; the bound twice, as without a check.
pub(crate) fn ask_all_checked(rt: &HostRuntime, schema: &[u8]) -> Result<(), Stopped> {
    ask_check(rt, schema)?;
    ask_subtype(rt, schema)?;
    ask_bound(rt, schema, &Form::ENTITY_2, &Form::ENTITY_4)?;
    ask_bound(rt, schema, &Form::LONG, &Form::BROKEN)?;
    ask_fold(rt, schema)?;
    ask_lookup(rt, schema)?;
    ask_own(rt, schema)?;
    ask_may_have(rt, schema)?;
    ask_names(rt, schema)?;
    ask_conforms(rt, schema, &Form::ENTITY_2, &Form::UID_2)?;
    ask_full(rt, schema, &Form::ENTITY_2, &Form::UID_2)?;
    ask_literal(rt, schema)
}

// The two conformances of a call with an argument too many.
pub(crate) fn ask_counted_checked(rt: &HostRuntime, schema: &[u8]) -> Result<(), Stopped> {
    ask_conforms(rt, schema, &Form::EXTENSION, &Form::CALL)?;
    ask_full(rt, schema, &Form::EXTENSION, &Form::CALL)
}

// The entries that read nothing of a whole schema, under one that is not whole.
pub(crate) fn ask_broken(rt: &HostRuntime, schema: &[u8]) -> Result<(), Stopped> {
    ask_check(rt, schema)?;
    ask_subtype(rt, schema)?;
    ask_bound(rt, schema, &Form::ENTITY_2, &Form::ENTITY_4)?;
    ask_own(rt, schema)
}
