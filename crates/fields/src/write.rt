//! A number, written right-justified.
ghost use Rattle.std.specs.Prelude.{◌≡◌, ◌≤◌, true, length, Some};
ghost use Rattle.fields.specs.Field.{field_value, fits, most_columns, put};

use itoa::Buffer;

/// Writes `v` right-justified into the whole of `out`, or nothing where `v` has more digits than `out` has columns, and answers whether it fits.
/// A number that fits is read from `out` again, where `out` is no wider than a field may be.
pub fn write_field(out: &mut [u8], v: u64) -> bool
    ensures answer { result ≡ fits (length out.old) v }
    ensures after { out.new ≡ put v out.old }
    ensures back { result ≡ true → length out.old ≤ most_columns → field_value out.new ≡ Some v }
{
    let mut buffer = Buffer::new();
    let digits = buffer.format(v).as_bytes();
    if digits.len() > out.len() {
        return false;
    }
    let (blanks, numeral) = out.split_at_mut(out.len() - digits.len());
    blanks.fill(b' ');
    numeral.copy_from_slice(digits);
    true
}
