// The answer to a question of a job, by the entry that it is put to.
ghost use Rattle.std.specs.Prelude.{◌≡◌, length};
ghost use Rattle.cedar.specs.Calls.{fold_call, lookup_call, names_call};
ghost use Rattle.cedar.specs.Lines.{job_room, job_work, outcome_of};
ghost use Rattle.forms.specs.Limits.{as_limits};
ghost use Rattle.writing.specs.FormLengths.{seen};
ghost use Rattle.validator.specs.Answers.{Answered};
ghost use Rattle.jobs.specs.JobBytes.{job_limits};
ghost use Rattle.jobs.specs.Walk.{asks};

use crate::operations::Operation;
use crate::questions::Question;
use crate::steps::Buffers;
use forms::limits::Limits;
use forms::refusals::Refusal;
use schemas::checked::Checked;
use validator::all_attributes::all_attributes_checked;
use validator::answers::Answer;
use validator::are_types_disjoint::are_types_disjoint;
use validator::convert::convert;
use validator::euid_literal::euid_literal_checked;
use validator::is_consistent_with::is_consistent_with;
use validator::is_subtype::is_subtype_checked;
use validator::least_upper_bound::least_upper_bound_checked;
use validator::lookup_attribute_type::lookup_attribute_type_checked;
use validator::may_have_attr::may_have_attr_checked;
use validator::reduce_to_least_upper_bound::reduce_to_least_upper_bound_checked;
use validator::typecheck_restricted_expr::{
    typecheck_restricted_expr_checked, typecheck_restricted_expr_exact_checked,
};

// The lookup of an attribute, with a job's workspace. An array is cleared where its function begins, so each stands in one of its own.
fn lookup(schema: &Checked<'_>, attribute: u16, t: &[u8], res: &mut [u8]) -> Result<Answer, Refusal>
    ensures { Answered (lookup_call (as_limits schema.now.limits) schema.now.bytes.now attribute t.now (length res.old) job_work) res.old res.new (seen result) }
{
    let mut work = [0u8; Buffers::WORK];
    lookup_attribute_type_checked(schema, attribute, t, res, &mut work)
}

// The names of a type's attributes.
fn names(schema: &Checked<'_>, t: &[u8], res: &mut [u8]) -> Result<Answer, Refusal>
    ensures { Answered (names_call (as_limits schema.now.limits) schema.now.bytes.now t.now (length res.old) job_work) res.old res.new (seen result) }
{
    let mut work = [0u8; Buffers::WORK];
    all_attributes_checked(schema, t, res, &mut work)
}

// The fold of a list.
fn fold(schema: &Checked<'_>, mode: u8, list: &[u8], res: &mut [u8]) -> Result<Answer, Refusal>
    ensures { Answered (fold_call (as_limits schema.now.limits) mode schema.now.bytes.now list.now (length res.old) job_work) res.old res.new (seen result) }
{
    let mut work = [0u8; Buffers::WORK];
    reduce_to_least_upper_bound_checked(schema, mode, list, res, &mut work)
}

// A question put to its entry, under the schema that was checked.
pub fn ask(q: Question<'_>, schema: &Checked<'_>, res: &mut [u8]) -> Result<Answer, Refusal>
    requires own_limits { schema.now.limits ≡ job_limits }
    requires res_len { length res.old ≡ job_room }
    ensures { Answered (outcome_of schema.now.bytes.now (asks q.entry)) res.old res.new (seen result) }
{
    let Question {
        operation,
        mode,
        attribute,
        first,
        second,
    } = q;
    let limits = Limits::standard();
    match operation {
        Operation::Subtype => is_subtype_checked(schema, mode, first, second),
        Operation::Bound => least_upper_bound_checked(schema, mode, first, second, res),
        Operation::Disjoint => are_types_disjoint(limits, first, second),
        Operation::Lookup => lookup(schema, attribute, first, res),
        Operation::MayHave => may_have_attr_checked(schema, attribute, first),
        Operation::Names => names(schema, first, res),
        Operation::Consistent => is_consistent_with(limits, first, second),
        Operation::Convert => convert(limits, first, res),
        Operation::Conforms => typecheck_restricted_expr_checked(schema, first, second),
        Operation::Fold => fold(schema, mode, first, res),
        Operation::Literal => euid_literal_checked(schema, first, res),
        Operation::Full => typecheck_restricted_expr_exact_checked(schema, first, second),
    }
}
