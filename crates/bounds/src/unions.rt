// The union of two lists of ascending names, written.
ghost use Rattle.std.specs.Prelude.{◌≤◌, length};
ghost use Rattle.cedar.specs.Bytes.{enc_names};
ghost use Rattle.cedar.specs.Bound.{union};
ghost use Rattle.writing.specs.Written.{Written};
ghost use Rattle.forms.specs.Names.{names_in, Ascending};

use bound_lengths::names::Union;
use forms::widths::Width;
use writing::writers::put_name;

// Writes the names of the union, and says how many bytes they are.
pub fn write_union(mut names: Union, out: &mut [u8]) -> usize
    requires ascending { Ascending names.left.now × Ascending names.right.now }
    requires room { length (enc_names (union (names_in names.left.now) (names_in names.right.now))) ≤ length out.old }
    ensures { Written (enc_names (union (names_in names.entry.left.now) (names_in names.entry.right.now))) out.old out.new result }
{
    let mut at = 0;
    while let Some(name) = names.next() {
        put_name(&mut out[at..], name);
        at += Width::NAME;
    }
    at
}
