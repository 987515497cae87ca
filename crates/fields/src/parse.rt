//! The number that a field holds.
ghost use Rattle.std.specs.Prelude.{◌≡◌, length, IfSome};
ghost use Rattle.fields.specs.Field.{field, field_value};

/// The most columns that a field has: numbers of so many digits are within 64 bits.
pub const MOST_COLUMNS: usize = 19;

/// The number that stands right-justified in `b` without leading zeros, or nothing where `b` is malformed or too wide.
/// A number that is read, written into as many columns, gives `b` again.
pub fn parse_field(b: &[u8]) -> Option<u64>
    ensures value { result ≡ field_value b.now }
    ensures back { IfSome result (λ v. b.now ≡ field (length b.now) v) }
{
    if b.len() > MOST_COLUMNS {
        return None;
    }
    let start = b.iter().position(|c| *c != b' ')?;
    let numeral = &b[start..];
    if numeral[0] == b'0' && numeral.len() > 1 {
        return None;
    }
    let mut v: u64 = 0;
    for c in numeral {
        match c {
            b'0'..=b'9' => v = v * 10 + u64::from(c - b'0'),
            _ => return None,
        }
    }
    Some(v)
}
