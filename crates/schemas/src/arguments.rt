// The body of a function's entry: the arguments that it takes.
ghost use Rattle.std.specs.Prelude.{◌≡◌, ◌≤◌, length};
ghost use Rattle.schemas.specs.SchemaBytes.{arg_fits, args_fit};

use crate::order::is_blank;
use forms::kinds::ArgumentKind;
use forms::offsets::SchemaOffset;
use forms::widths::Width;

// Whether the first argument's kind is known and it names an extension only where it is one.
fn argument_within(a: &[u8]) -> bool
    requires { 3 ≤ length a.now }
    ensures { result ≡ arg_fits a.now }
{
    match ArgumentKind::try_from(a[0]) {
        Ok(ArgumentKind::Extension) => true,
        Ok(_) => is_blank(a, SchemaOffset::ARGUMENT_EXTENSION),
        Err(_) => false,
    }
}

// Whether bytes are arguments, with no byte over.
pub fn arguments_within(b: &[u8]) -> bool
    ensures { result ≡ args_fit b.now }
{
    let mut left = b;
    while let Some((argument, others)) = left.split_at_checked(Width::ARGUMENT) {
        if !argument_within(argument) {
            return false;
        }
        left = others;
    }
    left.is_empty()
}
