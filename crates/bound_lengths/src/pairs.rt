// What two attributes of one name come to, and what the mode allows.
ghost use Rattle.std.specs.Prelude.{◌≡◌, ◌||◌, ◌*◌, ◌≤◌, cond, length, Some, None};
ghost use Rattle.cedar.specs.Result.{ok, err};
ghost use Rattle.cedar.specs.Types.{is_permissive, names, eq_names, eq_flag};
ghost use Rattle.forms.specs.Modes.{as_mode};
ghost use Rattle.forms.specs.Refusals.{number_of};
ghost use Rattle.forms.specs.TypeBytes.{names_by};
ghost use Rattle.forms.specs.TypeForms.{listed};
ghost use Rattle.writing.specs.FormLengths.{seen};

use forms::modes::Mode;
use forms::refusals::Refusal;
use forms::rows::Attributes;
use forms::type_forms::AttributeForms;

// Strict, two tables of attributes need the same names, whatever else their entries say.
pub fn rows_allowed(mode: Mode, attributes: Attributes, others: Attributes) -> bool
    requires { (5 * attributes.left ≤ length attributes.entries.now) × (5 * others.left ≤ length others.entries.now) }
    ensures { result ≡ (is_permissive (as_mode mode) || eq_names (names_by 5 attributes.entry.left attributes.entry.entries.now) (names_by 5 others.entry.left others.entry.entries.now)) }
{
    mode.is_permissive() || attributes.same_names(others)
}

// Of two attribute lists.
pub fn names_allowed(mode: Mode, attributes: AttributeForms, others: AttributeForms) -> bool
    ensures { result ≡ (is_permissive (as_mode mode) || eq_names (names (listed attributes.entry)) (names (listed others.entry))) }
{
    rows_allowed(mode, attributes.rows, others.rows)
}

// No attribute: permissive it is dropped, strict that is a refusal.
pub fn dropped(mode: Mode, reason: Refusal) -> Result<Option<usize>, Refusal>
    ensures { seen result ≡ cond (is_permissive (as_mode mode)) (ok None) (err (number_of reason)) }
{
    if mode.is_permissive() {
        return Ok(None);
    }
    Err(reason)
}

// An attribute with a type of so many bytes: strict, the flags are equal.
pub fn kept(mode: Mode, a: bool, b: bool, n: usize) -> Result<Option<usize>, Refusal>
    ensures { seen result ≡ cond (is_permissive (as_mode mode) || eq_flag a b) (ok (Some n)) (err 11) }
{
    if mode.is_permissive() || a == b {
        return Ok(Some(n));
    }
    Err(Refusal::AttributeQualifier)
}
