// The least upper bound of two types, written where the length pass found it to fit.
ghost use Rattle.std.specs.Prelude.{◌≡◌, true, ◌+◌, ◌*◌, length};
ghost use Rattle.cedar.specs.Types.{strict, ent};
ghost use Rattle.cedar.specs.TypeForm.{enc};
ghost use Rattle.cedar.specs.Result.{ok};
ghost use Rattle.cedar.specs.Bound.{union};
ghost use Rattle.cedar.specs.Laws.DirectBound.{direct};
ghost use Rattle.forms.specs.Kinds.{kind_number};
ghost use Rattle.forms.specs.Modes.{as_mode};
ghost use Rattle.forms.specs.Parts.{rd, rest, kind};
ghost use Rattle.forms.specs.Tables.{Tabled, attrs_at};
ghost use Rattle.forms.specs.TypeBytes.{whole, dec, names_up, names_by};
ghost use Rattle.writing.specs.FormLengths.{table, form_of, Ready};
ghost use Rattle.writing.specs.Written.{Written};
ghost use Rattle.bound_lengths.specs.Kinds.{unlike};
ghost use Rattle.bound_lengths.specs.Pairs.{joined_attrs};
ghost use Rattle.bounds.specs.Joins.{count_of, KnownLength};

use crate::flags::is_open;
use crate::kept_attributes::{kept_count, kept_with};
use crate::unions::write_union;
use crate::untyped_sets::{past_typed, put_sets};
use bound_lengths::kinds::unlike_kinds;
use bound_lengths::names::Union;
use forms::kinds::{Kind, Openness};
use forms::modes::Mode;
use forms::numbers::u16_at;
use forms::offsets::Offset;
use forms::rows::Rows;
use forms::type_forms::TypeForm;
use forms::widths::Width;
use writing::writers::{copy, put_attribute, put_bytes, put_first, put_kind, put_record};

// Writes the bound of two unlike kinds, neither of them Never, and says how long it is.
fn write_unlike(mode: Mode, j: Kind, k: Kind, out: &mut [u8]) -> usize
    requires { Ready enc (unlike (as_mode mode) (kind_number j) (kind_number k)) out.old }
    ensures { Written (form_of enc (unlike (as_mode mode) (kind_number j) (kind_number k))) out.old out.new result }
{
    let Ok(kind) = unlike_kinds(mode, j, k) else {
        return 0;
    };
    put_first(out, kind);
    Offset::ELEMENT
}

// Writes the entity of the names of two, and says how long it is.
fn write_entities(a: &[u8], b: &[u8], out: &mut [u8]) -> usize
    requires a_len { (length a.now ≡ 3 + 2 * rd a.now 1) × (names_up (rd a.now 1) 0 (rest 3 a.now) ≡ true) }
    requires b_len { (length b.now ≡ 3 + 2 * rd b.now 1) × (names_up (rd b.now 1) 0 (rest 3 b.now) ≡ true) }
    requires ready { Ready enc (ok (ent (union (names_by 2 (rd a.now 1) (rest 3 a.now)) (names_by 2 (rd b.now 1) (rest 3 b.now))))) out.old }
    ensures { Written (enc (ent (union (names_by 2 (rd a.now 1) (rest 3 a.now)) (names_by 2 (rd b.now 1) (rest 3 b.now))))) out.old out.new result }
{
    let names = Union {
        left: &a[Offset::ENTITY_NAMES..],
        right: &b[Offset::ENTITY_NAMES..],
    };
    put_kind(out, Kind::Entity, names.count());
    write_union(names, &mut out[Offset::ENTITY_NAMES..]) + Offset::ENTITY_NAMES
}

// Writes the bound of two types, and says how long it is. Its length is given where it is known.
#[cycle(write_action_write_attributes_write_bound_write_record_write_set)]
pub fn write_bound(
    mode: Mode,
    a: &[u8],
    b: &[u8],
    levels: usize,
    known: Option<usize>,
    out: &mut [u8],
) -> usize
    requires a_whole { whole levels a.now ≡ true }
    requires b_whole { whole levels b.now ≡ true }
    requires ready { Ready enc (direct (as_mode mode) (dec levels a.now) (dec levels b.now)) out.old }
    requires known_length { KnownLength known (form_of enc (direct (as_mode mode) (dec levels a.now) (dec levels b.now))) }
    ensures { Written (form_of enc (direct (as_mode mode) (dec levels a.now) (dec levels b.now))) out.old out.new result }
{
    let j = Kind::of(a);
    let k = Kind::of(b);
    if j == Kind::Never {
        return put_bytes(b, out);
    }
    if k == Kind::Never {
        return put_bytes(a, out);
    }
    if j != k {
        return write_unlike(mode, j, k, out);
    }
    match j {
        Kind::Set => write_set(mode, a, b, levels, known, out),
        Kind::Record => write_record(mode, a, b, levels, out),
        Kind::Entity => {
            if mode.is_permissive() {
                return write_entities(&a[0..], &b[0..], out);
            }
            put_bytes(a, out)
        }
        Kind::Action => {
            if u16_at(a, Offset::ACTION_NAME) != u16_at(b, Offset::ACTION_NAME) {
                return write_unlike(mode, j, k, out);
            }
            write_action(&a[0..], &b[0..], levels, out)
        }
        _ => put_bytes(a, out),
    }
}

// Writes the bound of two sets, and says how long it is: the untyped set, or behind the kinds of the typed ones what is left.
#[cycle(write_action_write_attributes_write_bound_write_record_write_set)]
fn write_set(
    mode: Mode,
    a: &[u8],
    b: &[u8],
    levels: usize,
    known: Option<usize>,
    out: &mut [u8],
) -> usize
    requires a_whole { (whole levels a.now ≡ true) × (kind a.now ≡ 7) }
    requires b_whole { (whole levels b.now ≡ true) × (kind b.now ≡ 7) }
    requires ready { Ready enc (direct (as_mode mode) (dec levels a.now) (dec levels b.now)) out.old }
    requires known_length { KnownLength known (form_of enc (direct (as_mode mode) (dec levels a.now) (dec levels b.now))) }
    ensures { Written (form_of enc (direct (as_mode mode) (dec levels a.now) (dec levels b.now))) out.old out.new result }
{
    let left = TypeForm { levels, bytes: a };
    let right = TypeForm { levels, bytes: b };
    let (x, y, length, sets) = past_typed(mode, left, right, known);
    if sets == 0 {
        put_first(out, Kind::AnySet);
        return Offset::ELEMENT;
    }
    put_sets(out, sets);
    write_bound(mode, x.bytes, y.bytes, x.levels, length, &mut out[sets..]) + sets
}

// Writes the bound of two records, and says how long it is.
#[cycle(write_action_write_attributes_write_bound_write_record_write_set)]
fn write_record(mode: Mode, a: &[u8], b: &[u8], levels: usize, out: &mut [u8]) -> usize
    requires a_whole { (whole levels a.now ≡ true) × (kind a.now ≡ 8) }
    requires b_whole { (whole levels b.now ≡ true) × (kind b.now ≡ 8) }
    requires ready { Ready enc (direct (as_mode mode) (dec levels a.now) (dec levels b.now)) out.old }
    ensures { Written (form_of enc (direct (as_mode mode) (dec levels a.now) (dec levels b.now))) out.old out.new result }
{
    let x = &a[Offset::RECORD_COUNT..];
    let y = &b[Offset::RECORD_COUNT..];
    let n = kept_count(mode, x, y, levels - 1);
    let is_open = is_open(
        a[Offset::OPEN] == Openness::OPEN,
        b[Offset::OPEN] == Openness::OPEN,
        n,
        u16_at(x, 0),
        u16_at(y, 0),
    );
    put_record(out, is_open, n);
    let behind = Offset::RECORD_ENTRIES;
    write_attributes(mode, x, y, n, levels - 1, &mut out[behind..]) + behind
}

// Writes the bound of two actions of one name, and says how long it is.
#[cycle(write_action_write_attributes_write_bound_write_record_write_set)]
fn write_action(a: &[u8], b: &[u8], levels: usize, out: &mut [u8]) -> usize
    requires a_whole { (whole levels a.now ≡ true) × (kind a.now ≡ 11) }
    requires b_whole { (whole levels b.now ≡ true) × (kind b.now ≡ 11) }
    requires same_name { rd a.now 1 ≡ rd b.now 1 }
    requires ready { Ready enc (direct strict (dec levels a.now) (dec levels b.now)) out.old }
    ensures { Written (form_of enc (direct strict (dec levels a.now) (dec levels b.now))) out.old out.new result }
{
    let behind = Offset::ACTION_ENTRIES;
    copy(&a[0..behind], out);
    let x = &a[Offset::ACTION_COUNT..];
    let y = &b[Offset::ACTION_COUNT..];
    let n = u16_at(x, 0);
    write_attributes(Mode::Strict, x, y, n, levels - 1, &mut out[behind..]) + behind
}

// Writes the n attributes of the bound of two tables, each from its count on, and says how long they are.
#[cycle(write_action_write_attributes_write_bound_write_record_write_set)]
fn write_attributes(
    mode: Mode,
    a: &[u8],
    b: &[u8],
    n: usize,
    levels: usize,
    out: &mut [u8],
) -> usize
    requires a_tabled { Tabled levels 0 a.now }
    requires b_tabled { Tabled levels 0 b.now }
    requires n_kept { n ≡ count_of (joined_attrs (as_mode mode) (attrs_at levels 0 a.now) (attrs_at levels 0 b.now)) }
    requires ready { Ready table (joined_attrs (as_mode mode) (attrs_at levels 0 a.now) (attrs_at levels 0 b.now)) out.old }
    ensures { Written (form_of table (joined_attrs (as_mode mode) (attrs_at levels 0 a.now) (attrs_at levels 0 b.now))) out.old out.new result }
{
    let mut rows: Rows<{ Width::ATTRIBUTE }> = Rows::at(a, 0);
    let mut others: Rows<{ Width::ATTRIBUTE }> = Rows::at(b, 0);
    let mut at = 0;
    let mut pos = Width::ATTRIBUTE * n;
    while let Some(row) = rows.next() {
        let name = row.name();
        let Some(other) = kept_with(mode, row, others.find(name), levels) else {
            continue;
        };
        let required = row.is_required() && other.is_required();
        let len = write_bound(mode, row.body, other.body, levels, None, &mut out[pos..]);
        put_attribute(&mut out[at..], name, required, len);
        at += Width::ATTRIBUTE;
        pos += len;
    }
    pos
}
