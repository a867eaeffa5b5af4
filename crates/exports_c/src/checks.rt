// One number for the outcome of a schema's check.
ghost use Rattle.std.specs.Prelude.{◌≡◌};
ghost use Rattle.exports.specs.Checks.{check_number};

// Checks a schema under limits.
#[unsafe(no_mangle)]
pub extern "C" fn tirncheav_check_schema(levels: usize, bytes: usize, schema: &[u8]) -> u64
    ensures { result ≡ check_number (record { levels = levels; bytes = bytes }) schema.now }
{
    exports::checks::tirncheav_check_schema(levels, bytes, schema)
}
