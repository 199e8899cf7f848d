// The fields of a record, its kind, and the numbers that fields spell.
ghost use Rattle.std.specs.Prelude.{◌≡◌, ◌<◌, ◌^◌, IfSome};
ghost use Rattle.csv.specs.Records.{fields_of};
ghost use Rattle.scenario_read.specs.Numbers.{natural_of, number_of};
ghost use Rattle.scenario_read.specs.Fields.{field_text, is_kind};

use csv::ByteRecord;

// The number that 1 to 18 digits spell.
fn natural(digits: &[u8]) -> Option<u64>
    ensures value { result ≡ natural_of digits.now }
    ensures bound { IfSome result (λ n. n < 10 ^ 18) }
{
    if digits.is_empty() || digits.len() > 18 {
        return None;
    }
    let mut number = 0u64;
    for digit in digits {
        if *digit < b'0' || b'9' < *digit {
            return None;
        }
        number = 10 * number + u64::from(*digit - b'0');
    }
    Some(number)
}

/// The number that a field spells: an optional minus and 1 to 18 digits.
pub(crate) fn number(field: &[u8]) -> Option<i64>
    ensures { result ≡ number_of field.now }
{
    match field {
        [b'-', digits @ ..] => match natural(digits) {
            Some(n) => Some(-(n as i64)),
            None => None,
        },
        _ => match natural(field) {
            Some(n) => Some(n as i64),
            None => None,
        },
    }
}

/// The bytes of a field; of one that isn't there, none.
pub fn field(row: &ByteRecord, k: usize) -> &[u8]
    ensures { result.now ≡ field_text (fields_of row.now) k }
{
    match row.get(k) {
        Some(text) => text,
        None => &[],
    }
}

/// Whether a record is of this kind.
pub fn is_kind(row: &ByteRecord, kind: &[u8]) -> bool
    ensures { result ≡ is_kind (fields_of row.now) kind.now }
{
    field(row, 0) == kind
}
