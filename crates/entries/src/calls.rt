// The calls that check the schema each time, under the standard limits, and measuring under any. The answers change if two arguments of
// one type are exchanged.
use crate::print::print_line;
use exports::calls::{
    tirncheav_all_attributes, tirncheav_are_types_disjoint, tirncheav_convert,
    tirncheav_euid_literal, tirncheav_is_consistent_with, tirncheav_is_subtype,
    tirncheav_least_upper_bound, tirncheav_lookup_attribute_type, tirncheav_may_have_attr,
    tirncheav_measure_type, tirncheav_measure_value, tirncheav_own_attribute_type,
    tirncheav_reduce_to_least_upper_bound, tirncheav_typecheck_restricted_expr,
    tirncheav_typecheck_restricted_expr_exact,
};
use forms::limits::Limits;
use streams::Stopped;
use trial::{Form, result, workspace};

fn ask_disjoint(rt: &HostRuntime, t0: &[u8], t1: &[u8]) -> Result<(), Stopped> {
    let n = tirncheav_are_types_disjoint(Limits::LEVELS, Limits::BYTES, t0, t1);
    print_line(rt, "are_types_disjoint", n, &[])
}

fn ask_subtype(rt: &HostRuntime, schema: &[u8]) -> Result<(), Stopped> {
    let n = tirncheav_is_subtype(
        Limits::LEVELS,
        Limits::BYTES,
        1,
        schema,
        &Form::ENTITY_2,
        &Form::BOTH,
    );
    print_line(rt, "is_subtype", n, &[])
}

fn ask_bound(rt: &HostRuntime, schema: &[u8], t0: &[u8], t1: &[u8]) -> Result<(), Stopped> {
    let mut out = result();
    let n = tirncheav_least_upper_bound(Limits::LEVELS, Limits::BYTES, 1, schema, t0, t1, &mut out);
    print_line(rt, "least_upper_bound", n, &[&out])
}

fn ask_fold(rt: &HostRuntime, schema: &[u8]) -> Result<(), Stopped> {
    let mut out = result();
    let mut work = workspace();
    let n = tirncheav_reduce_to_least_upper_bound(
        Limits::LEVELS,
        Limits::BYTES,
        1,
        schema,
        &Form::LIST,
        &mut out,
        &mut work,
    );
    print_line(rt, "reduce_to_least_upper_bound", n, &[&out, &work])
}

fn ask_lookup(rt: &HostRuntime, schema: &[u8]) -> Result<(), Stopped> {
    let mut out = result();
    let mut work = workspace();
    let n = tirncheav_lookup_attribute_type(
        Limits::LEVELS,
        Limits::BYTES,
        schema,
        1,
        &Form::BOTH,
        &mut out,
        &mut work,
    );
    print_line(rt, "lookup_attribute_type", n, &[&out, &work])
}

fn ask_own(rt: &HostRuntime, schema: &[u8]) -> Result<(), Stopped> {
    let n = tirncheav_own_attribute_type(Limits::LEVELS, Limits::BYTES, schema, 1, &Form::RECORD);
    print_line(rt, "own_attribute_type", n, &[])
}

fn ask_may_have(rt: &HostRuntime, schema: &[u8]) -> Result<(), Stopped> {
    let n = tirncheav_may_have_attr(Limits::LEVELS, Limits::BYTES, schema, 1, &Form::ENTITY_2);
    print_line(rt, "may_have_attr", n, &[])
}

fn ask_names(rt: &HostRuntime, schema: &[u8]) -> Result<(), Stopped> {
    let mut out = result();
    let mut work = workspace();
    let n = tirncheav_all_attributes(
        Limits::LEVELS,
        Limits::BYTES,
        schema,
        &Form::BOTH,
        &mut out,
        &mut work,
    );
    print_line(rt, "all_attributes", n, &[&out, &work])
}

fn ask_consistent(rt: &HostRuntime) -> Result<(), Stopped> {
    let n = tirncheav_is_consistent_with(Limits::LEVELS, Limits::BYTES, &Form::LONG, &Form::NEVER);
    print_line(rt, "is_consistent_with", n, &[])
}

fn ask_convert(rt: &HostRuntime) -> Result<(), Stopped> {
    let mut out = result();
    let n = tirncheav_convert(Limits::LEVELS, Limits::BYTES, &Form::TRUE, &mut out);
    print_line(rt, "convert", n, &[&out])
}

fn ask_conforms(rt: &HostRuntime, schema: &[u8], t: &[u8], v: &[u8]) -> Result<(), Stopped> {
    let n = tirncheav_typecheck_restricted_expr(Limits::LEVELS, Limits::BYTES, schema, t, v);
    print_line(rt, "typecheck_restricted_expr", n, &[])
}

fn ask_full(rt: &HostRuntime, schema: &[u8], t: &[u8], v: &[u8]) -> Result<(), Stopped> {
    let n = tirncheav_typecheck_restricted_expr_exact(Limits::LEVELS, Limits::BYTES, schema, t, v);
    print_line(rt, "typecheck_restricted_expr_exact", n, &[])
}

fn ask_literal(rt: &HostRuntime, schema: &[u8]) -> Result<(), Stopped> {
    let mut out = result();
    let n = tirncheav_euid_literal(
        Limits::LEVELS,
        Limits::BYTES,
        schema,
        &Form::UID_3,
        &mut out,
    );
    print_line(rt, "euid_literal", n, &[&out])
}

fn ask_type(rt: &HostRuntime, levels: usize, bytes: usize, t: &[u8]) -> Result<(), Stopped> {
    let n = tirncheav_measure_type(levels, bytes, t);
    print_line(rt, "measure_type", n, &[])
}

fn ask_value(rt: &HostRuntime, levels: usize, bytes: usize, v: &[u8]) -> Result<(), Stopped> {
    let n = tirncheav_measure_value(levels, bytes, v);
    print_line(rt, "measure_value", n, &[])
}

// A type and a value of two levels, forms of a byte that is neither, and a value of two levels that is no text.
pub(crate) fn ask_measured(rt: &HostRuntime, levels: usize, bytes: usize) -> Result<(), Stopped> {
    ask_type(rt, levels, bytes, &Form::RECORD)?;
    ask_type(rt, levels, bytes, &Form::BROKEN)?;
    ask_value(rt, levels, bytes, &Form::CALL)?;
    ask_value(rt, levels, bytes, &Form::BROKEN)?;
    ask_value(rt, levels, bytes, &Form::NO_TEXT)
}

// Disjoint and bound are the same both ways round, so their second question has a second type that is not whole.
pub(crate) fn ask_all(rt: &HostRuntime, schema: &[u8]) -> Result<(), Stopped> {
    ask_disjoint(rt, &Form::ENTITY_2, &Form::ENTITY_4)?;
    ask_disjoint(rt, &Form::LONG, &Form::BROKEN)?;
    ask_subtype(rt, schema)?;
    ask_bound(rt, schema, &Form::ENTITY_2, &Form::ENTITY_4)?;
    ask_bound(rt, schema, &Form::LONG, &Form::BROKEN)?;
    ask_fold(rt, schema)?;
    ask_lookup(rt, schema)?;
    ask_own(rt, schema)?;
    ask_may_have(rt, schema)?;
    ask_names(rt, schema)?;
    ask_consistent(rt)?;
    ask_convert(rt)?;
    ask_conforms(rt, schema, &Form::ENTITY_2, &Form::UID_2)?;
    ask_full(rt, schema, &Form::ENTITY_2, &Form::UID_2)?;
    ask_literal(rt, schema)?;
    ask_measured(rt, Limits::LEVELS, Limits::BYTES)
}

// The two conformances of a call with an argument too many.
pub(crate) fn ask_counted(rt: &HostRuntime, schema: &[u8]) -> Result<(), Stopped> {
    ask_conforms(rt, schema, &Form::EXTENSION, &Form::CALL)?;
    ask_full(rt, schema, &Form::EXTENSION, &Form::CALL)
}
