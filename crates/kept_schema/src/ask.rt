// Each call on a schema that was checked before, and its line.

use crate::beyond::{deep_type, long_type};
use crate::print::{print_kept, print_line, print_part};
use schemas::checked::Checked;
use streams::Stopped;
use trial::{Form, result, workspace};
use validator::all_attributes::all_attributes_checked;
use validator::euid_literal::euid_literal_checked;
use validator::is_subtype::is_subtype_checked;
use validator::least_upper_bound::least_upper_bound_checked;
use validator::lookup_attribute_type::lookup_attribute_type_checked;
use validator::may_have_attr::may_have_attr_checked;
use validator::own_attribute_type::own_attribute_type_checked;
use validator::reduce_to_least_upper_bound::reduce_to_least_upper_bound_checked;
use validator::typecheck_restricted_expr::{
    typecheck_restricted_expr_checked, typecheck_restricted_expr_exact_checked,
};

// A schema as it was checked.
#[derive(Clone, Copy)]
pub(crate) struct Kept<'a>(pub(crate) Checked<'a>);

impl Kept<'_> {
    fn ask_subtype(self, rt: &HostRuntime, mode: u8) -> Result<(), Stopped> {
        let below = is_subtype_checked(&self.0, mode, &Form::ENTITY_2, &Form::BOTH);
        print_line(rt, "is_subtype ", below, &[])
    }

    fn ask_may_have(self, rt: &HostRuntime, t: &[u8]) -> Result<(), Stopped> {
        let may = may_have_attr_checked(&self.0, 1, t);
        print_line(rt, "may_have_attr ", may, &[])
    }

    fn ask_conforms(self, rt: &HostRuntime, t: &[u8], v: &[u8]) -> Result<(), Stopped> {
        let conforms = typecheck_restricted_expr_checked(&self.0, t, v);
        print_line(rt, "typecheck_restricted_expr ", conforms, &[])
    }

    fn ask_full(self, rt: &HostRuntime, t: &[u8], v: &[u8]) -> Result<(), Stopped> {
        let conforms = typecheck_restricted_expr_exact_checked(&self.0, t, v);
        print_line(rt, "typecheck_restricted_expr_exact ", conforms, &[])
    }

    // Both conformances of a uid, and of a call with an argument too many.
    fn ask_both(self, rt: &HostRuntime) -> Result<(), Stopped> {
        self.ask_conforms(rt, &Form::ENTITY_2, &Form::UID_2)?;
        self.ask_conforms(rt, &Form::EXTENSION, &Form::CALL)?;
        self.ask_full(rt, &Form::ENTITY_2, &Form::UID_2)?;
        self.ask_full(rt, &Form::EXTENSION, &Form::CALL)
    }

    fn ask_bound(self, rt: &HostRuntime, mode: u8, t0: &[u8], t1: &[u8]) -> Result<(), Stopped> {
        let mut out = result();
        let answer = least_upper_bound_checked(&self.0, mode, t0, t1, &mut out);
        print_line(rt, "least_upper_bound ", answer, &[&out])
    }

    fn ask_fold(self, rt: &HostRuntime, mode: u8) -> Result<(), Stopped> {
        let mut out = result();
        let mut work = workspace();
        let answer = reduce_to_least_upper_bound_checked(
            &self.0,
            mode,
            &Form::LIST,
            &mut out,
            &mut work,
        );
        print_line(rt, "reduce_to_least_upper_bound ", answer, &[&out, &work])
    }

    fn ask_lookup(self, rt: &HostRuntime) -> Result<(), Stopped> {
        let mut out = result();
        let mut work = workspace();
        let answer = lookup_attribute_type_checked(&self.0, 1, &Form::BOTH, &mut out, &mut work);
        print_line(rt, "lookup_attribute_type ", answer, &[&out, &work])
    }

    fn ask_own(self, rt: &HostRuntime) -> Result<(), Stopped> {
        let mut told = 0u8;
        let part = own_attribute_type_checked(&self.0, 1, &Form::RECORD, &mut told);
        print_part(rt, "own_attribute_type ", told, part)
    }

    fn ask_names(self, rt: &HostRuntime) -> Result<(), Stopped> {
        let mut out = result();
        let mut work = workspace();
        let answer = all_attributes_checked(&self.0, &Form::BOTH, &mut out, &mut work);
        print_line(rt, "all_attributes ", answer, &[&out, &work])
    }

    fn ask_literal(self, rt: &HostRuntime) -> Result<(), Stopped> {
        let mut out = result();
        let answer = euid_literal_checked(&self.0, &Form::UID_3, &mut out);
        print_line(rt, "euid_literal ", answer, &[&out])
    }

    // Each call once; the bound is the same both ways round, so its second question has a second type that is not whole.
    fn ask_each(self, rt: &HostRuntime) -> Result<(), Stopped> {
        self.ask_subtype(rt, 1)?;
        self.ask_may_have(rt, &Form::ENTITY_2)?;
        self.ask_both(rt)?;
        self.ask_bound(rt, 1, &Form::ENTITY_2, &Form::ENTITY_4)?;
        self.ask_bound(rt, 1, &Form::LONG, &Form::BROKEN)?;
        self.ask_fold(rt, 1)?;
        self.ask_lookup(rt)?;
        self.ask_own(rt)?;
        self.ask_names(rt)?;
        self.ask_literal(rt)
    }

    // The calls that take a mode, with a number that is none.
    fn ask_no_mode(self, rt: &HostRuntime) -> Result<(), Stopped> {
        self.ask_subtype(rt, 3)?;
        self.ask_bound(rt, 3, &Form::ENTITY_2, &Form::ENTITY_4)?;
        self.ask_fold(rt, 3)
    }

    // The block and the limits, each call, and two types that the standard limits refuse.
    pub(crate) fn ask_all(self, rt: &HostRuntime) -> Result<(), Stopped> {
        print_kept(rt, self.0.bytes.len(), self.0.limits)?;
        self.ask_each(rt)?;
        self.ask_no_mode(rt)?;
        self.ask_may_have(rt, &deep_type())?;
        self.ask_may_have(rt, &long_type())
    }
}
