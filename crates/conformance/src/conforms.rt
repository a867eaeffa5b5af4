// Whether a value has a type: `typecheck_restricted_expr`, element by element, by falling level.
ghost use Rattle.std.specs.Prelude.{◌≡◌, true};
ghost use Rattle.cedar.specs.TypeForm.{rec_kind};
ghost use Rattle.cedar.specs.ValueForm.{set_kind, record_kind};
ghost use Rattle.cedar.specs.Conformance.{each_value, conforms as has};
ghost use Rattle.forms.specs.TypeBytes.{whole_as, whole, dec};
ghost use Rattle.schemas.specs.Schema.{said_by};
ghost use Rattle.forms.specs.ValueBytes.{whole_v_as, whole_v, dec_v};
ghost use Rattle.conformance.specs.Walks.{is_open, attributes_of, members_of, pairs_of, record_said};
ghost use Rattle.conformance.specs.Counts.{counts_of};
ghost use Rattle.conformance.specs.Verdicts.{verdict_of};

use crate::calls::call_returns;
use crate::counts::Under;
use crate::entities::{is_action_of, stands};
use crate::kinds::takes_kind;
use crate::required::has_required;
use crate::verdicts::{Verdict, tested};
use forms::kinds::{Kind, Openness, ValueKind};
use forms::numbers::u16_at;
use forms::offsets::{Offset, ValueOffset};
use forms::rows::Rows;
use forms::widths::Width;

// Whether v has the type t. Parts are handed on, not t and v as they came, which would be copied through memory at each call.
#[cycle(conforms_members_conform_record_conforms)]
pub fn conforms(under: &Under, t: &[u8], v: &[u8], levels: usize) -> Verdict
    requires t_whole { whole levels t.now ≡ true }
    requires v_whole { whole_v levels v.now ≡ true }
    ensures { result ≡ verdict_of (has (counts_of under.now.counts) (said_by under.now.schema) (dec levels t.now) (dec_v levels v.now)) }
{
    let kind = Kind::of(t);
    if !takes_kind(kind, ValueKind::of(v)) {
        return Verdict::Fails;
    }
    match kind {
        Kind::Set => members_conform(under, &t[Offset::ELEMENT..], &v[0..], levels - 1),
        Kind::Record => record_conforms(under, &t[0..], &v[0..], levels - 1),
        Kind::Entity => tested(stands(
            &t[Offset::ENTITY_NAMES..],
            u16_at(v, ValueOffset::UID_TYPE),
        )),
        Kind::Action => tested(is_action_of(
            u16_at(v, ValueOffset::UID_TYPE),
            u16_at(t, Offset::ACTION_NAME),
        )),
        Kind::Extension => {
            let name = u16_at(t, Offset::EXTENSION_NAME);
            call_returns(under, &v[0..], name, levels - 1)
        }
        _ => Verdict::Holds,
    }
}

// Whether each member of the set v has the type t.
#[cycle(conforms_members_conform_record_conforms)]
fn members_conform(under: &Under, t: &[u8], v: &[u8], levels: usize) -> Verdict
    requires t_whole { whole levels t.now ≡ true }
    requires v_whole { whole_v_as (whole_v levels) set_kind v.now ≡ true }
    ensures { result ≡ verdict_of (each_value (λ x. has (counts_of under.now.counts) (said_by under.now.schema) (dec levels t.now) x) (members_of levels v.now)) }
{
    let mut members: Rows<{ Width::MEMBER }> = Rows::at(v, ValueOffset::SET_COUNT);
    while let Some(member) = members.next() {
        let said = conforms(under, t, member.body, levels);
        let Verdict::Holds = said else {
            return said;
        };
    }
    Verdict::Holds
}

// Whether the record v has the record type t: each pair first, then the required names. Names ascend in both: attributes that are
// passed for one pair are passed for the next. Where the type lacks a name, an open record takes any value.
#[cycle(conforms_members_conform_record_conforms)]
fn record_conforms(under: &Under, t: &[u8], v: &[u8], levels: usize) -> Verdict
    requires t_whole { whole_as (whole levels) rec_kind t.now ≡ true }
    requires v_whole { whole_v_as (whole_v levels) record_kind v.now ≡ true }
    ensures { result ≡ verdict_of (record_said (counts_of under.now.counts) (said_by under.now.schema) (is_open t.now) (attributes_of levels t.now) (pairs_of levels v.now)) }
{
    let mut attributes: Rows<{ Width::ATTRIBUTE }> = Rows::at(t, Offset::RECORD_COUNT);
    let mut pairs: Rows<{ Width::PAIR }> = Rows::at(v, ValueOffset::RECORD_COUNT);
    while let Some(pair) = pairs.next() {
        let said = match attributes.find(pair.name()) {
            Some(attribute) => conforms(under, attribute.body, pair.body, levels),
            None => tested(t[Offset::OPEN] == Openness::OPEN),
        };
        let Verdict::Holds = said else {
            return said;
        };
    }
    tested(has_required(t, v))
}
