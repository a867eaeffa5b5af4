// The calls, each with its limits and, if it takes a schema, the schema's bytes.
ghost use Rattle.std.specs.Prelude.{◌≡◌, length};
ghost use Rattle.cedar.specs.BodyPlace.{body_in};
ghost use Rattle.cedar.specs.Calls.{subtype_call, bound_call, fold_call, lookup_call, own_attribute_call, may_have_call, names_call, literal_call, conforms_call, full_call, disjoint_call, consistent_call, convert_call, measure_type_call, measure_value_call};
ghost use Rattle.validator.specs.Answers.{answer_of};
ghost use Rattle.validator.specs.Handed.{part_of};
ghost use Rattle.exports.specs.Checks.{within};
ghost use Rattle.exports.specs.Numbers.{answer_number, Numbered, NumberedIn, part_number};

// How long a type's form is, and how many levels it has.
#[unsafe(no_mangle)]
pub extern "C" fn tirncheav_measure_type(levels: usize, bytes: usize, t: &[u8]) -> u64
    ensures { result ≡ answer_number (answer_of (measure_type_call (within levels bytes) t.now)) }
{
    exports::calls::tirncheav_measure_type(levels, bytes, t)
}

// How long a value's form is, and how many levels it has.
#[unsafe(no_mangle)]
pub extern "C" fn tirncheav_measure_value(levels: usize, bytes: usize, v: &[u8]) -> u64
    ensures { result ≡ answer_number (answer_of (measure_value_call (within levels bytes) v.now)) }
{
    exports::calls::tirncheav_measure_value(levels, bytes, v)
}

// Whether both types name entity types, and none in common.
#[unsafe(no_mangle)]
pub extern "C" fn tirncheav_are_types_disjoint(
    levels: usize,
    bytes: usize,
    t0: &[u8],
    t1: &[u8],
) -> u64
    ensures { result ≡ answer_number (answer_of (disjoint_call (within levels bytes) t0.now t1.now)) }
{
    exports::calls::tirncheav_are_types_disjoint(levels, bytes, t0, t1)
}

// Whether a type is a subtype of another.
#[unsafe(no_mangle)]
pub extern "C" fn tirncheav_is_subtype(
    levels: usize,
    bytes: usize,
    mode: u8,
    schema: &[u8],
    t0: &[u8],
    t1: &[u8],
) -> u64
    ensures { result ≡ answer_number (answer_of (subtype_call (within levels bytes) mode schema.now t0.now t1.now)) }
{
    exports::calls::tirncheav_is_subtype(levels, bytes, mode, schema, t0, t1)
}

// The least upper bound of two types.
#[unsafe(no_mangle)]
pub extern "C" fn tirncheav_least_upper_bound(
    levels: usize,
    bytes: usize,
    mode: u8,
    schema: &[u8],
    t0: &[u8],
    t1: &[u8],
    out: &mut [u8],
) -> u64
    ensures { Numbered (bound_call (within levels bytes) mode schema.now t0.now t1.now (length out.old)) out.old out.new result }
{
    exports::calls::tirncheav_least_upper_bound(levels, bytes, mode, schema, t0, t1, out)
}

// The least upper bound of a list of types.
#[unsafe(no_mangle)]
pub extern "C" fn tirncheav_reduce_to_least_upper_bound(
    levels: usize,
    bytes: usize,
    mode: u8,
    schema: &[u8],
    list: &[u8],
    out: &mut [u8],
    work: &mut [u8],
) -> u64
    ensures { NumberedIn (fold_call (within levels bytes) mode schema.now list.now (length out.old) (length work.old)) out.old out.new work.old work.new result }
{
    exports::calls::tirncheav_reduce_to_least_upper_bound(
        levels, bytes, mode, schema, list, out, work,
    )
}

// The attribute of a type, with its required flag.
#[unsafe(no_mangle)]
pub extern "C" fn tirncheav_lookup_attribute_type(
    levels: usize,
    bytes: usize,
    schema: &[u8],
    attr: u16,
    t: &[u8],
    out: &mut [u8],
    work: &mut [u8],
) -> u64
    ensures { NumberedIn (lookup_call (within levels bytes) schema.now attr t.now (length out.old) (length work.old)) out.old out.new work.old work.new result }
{
    exports::calls::tirncheav_lookup_attribute_type(levels, bytes, schema, attr, t, out, work)
}

// The attribute of a record or an action, as a part of t.
#[unsafe(no_mangle)]
pub extern "C" fn tirncheav_own_attribute_type(
    levels: usize,
    bytes: usize,
    schema: &[u8],
    attr: u16,
    t: &[u8],
) -> u64
    ensures { result ≡ part_number (part_of (own_attribute_call (within levels bytes) schema.now attr t.now) (body_in (within levels bytes) attr t.now)) }
{
    exports::calls::tirncheav_own_attribute_type(levels, bytes, schema, attr, t)
}

// Whether a value of a type might have an attribute.
#[unsafe(no_mangle)]
pub extern "C" fn tirncheav_may_have_attr(
    levels: usize,
    bytes: usize,
    schema: &[u8],
    attr: u16,
    t: &[u8],
) -> u64
    ensures { result ≡ answer_number (answer_of (may_have_call (within levels bytes) schema.now attr t.now)) }
{
    exports::calls::tirncheav_may_have_attr(levels, bytes, schema, attr, t)
}

// The names of a type's attributes.
#[unsafe(no_mangle)]
pub extern "C" fn tirncheav_all_attributes(
    levels: usize,
    bytes: usize,
    schema: &[u8],
    t: &[u8],
    out: &mut [u8],
    work: &mut [u8],
) -> u64
    ensures { NumberedIn (names_call (within levels bytes) schema.now t.now (length out.old) (length work.old)) out.old out.new work.old work.new result }
{
    exports::calls::tirncheav_all_attributes(levels, bytes, schema, t, out, work)
}

// Whether a type is consistent with a core type, by the Rust's test.
#[unsafe(no_mangle)]
pub extern "C" fn tirncheav_is_consistent_with(
    levels: usize,
    bytes: usize,
    t0: &[u8],
    t1: &[u8],
) -> u64
    ensures { result ≡ answer_number (answer_of (consistent_call (within levels bytes) t0.now t1.now)) }
{
    exports::calls::tirncheav_is_consistent_with(levels, bytes, t0, t1)
}

// The core type of a type.
#[unsafe(no_mangle)]
pub extern "C" fn tirncheav_convert(levels: usize, bytes: usize, t: &[u8], out: &mut [u8]) -> u64
    ensures { Numbered (convert_call (within levels bytes) t.now (length out.old)) out.old out.new result }
{
    exports::calls::tirncheav_convert(levels, bytes, t, out)
}

// Has a value a type under a schema?
#[unsafe(no_mangle)]
pub extern "C" fn tirncheav_typecheck_restricted_expr(
    levels: usize,
    bytes: usize,
    schema: &[u8],
    t: &[u8],
    v: &[u8],
) -> u64
    ensures { result ≡ answer_number (answer_of (conforms_call (within levels bytes) schema.now t.now v.now)) }
{
    exports::calls::tirncheav_typecheck_restricted_expr(levels, bytes, schema, t, v)
}

// Has a value a type under a schema, each call with as many arguments as its function declares?
#[unsafe(no_mangle)]
pub extern "C" fn tirncheav_typecheck_restricted_expr_exact(
    levels: usize,
    bytes: usize,
    schema: &[u8],
    t: &[u8],
    v: &[u8],
) -> u64
    ensures { result ≡ answer_number (answer_of (full_call (within levels bytes) schema.now t.now v.now)) }
{
    exports::calls::tirncheav_typecheck_restricted_expr_exact(levels, bytes, schema, t, v)
}

// The type of a uid.
#[unsafe(no_mangle)]
pub extern "C" fn tirncheav_euid_literal(
    levels: usize,
    bytes: usize,
    schema: &[u8],
    v: &[u8],
    out: &mut [u8],
) -> u64
    ensures { Numbered (literal_call (within levels bytes) schema.now v.now (length out.old)) out.old out.new result }
{
    exports::calls::tirncheav_euid_literal(levels, bytes, schema, v, out)
}
