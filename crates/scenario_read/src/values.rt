// What the fields of a record stand for.
ghost use Rattle.std.specs.Prelude.{◌≡◌, ◌≤◌, IfOk, pos, neg_ℤ, ◌≤ℤ◌};
ghost use Rattle.csv.specs.Records.{fields_of};
ghost use Rattle.crowd_data.specs.Limits.{IsWithin};
ghost use Rattle.scenario_read.specs.Values.{count_in, number_in, vector_in};

use crate::cause::Cause;
use crate::fields::{field, number};
use csv::ByteRecord;
use fixed_vec::V2;

/// The number of a field, from `least` to `most`.
#[tactic(auto, unfolding(crate::specs::Values::count_in))]
pub fn count_in(row: &ByteRecord, k: u32, least: u32, most: u32) -> Result<u32, Cause>
    ensures value { result ≡ count_in (fields_of row.now) k least most }
    ensures limits { IfOk result (λ n. (least ≤ n) × (n ≤ most)) }
{
    match number(field(row, k as usize)) {
        None => Err(Cause::NotANumber { field: k }),
        Some(n) => {
            if i64::from(least) <= n && n <= i64::from(most) {
                Ok(n as u32)
            } else {
                Err(Cause::OutOfRange { field: k })
            }
        }
    }
}

// The coordinate of a field, of at most this size.
fn coordinate_in(row: &ByteRecord, k: u32, most: u32) -> Result<i64, Cause>
    ensures value { result ≡ number_in (fields_of row.now) k (neg_ℤ (pos most)) (pos most) }
    ensures limits { IfOk result (λ z. (neg_ℤ (pos most) ≤ℤ z) × (z ≤ℤ pos most)) }
{
    match number(field(row, k as usize)) {
        None => Err(Cause::NotANumber { field: k }),
        Some(n) => {
            if -i64::from(most) <= n && n <= i64::from(most) {
                Ok(n)
            } else {
                Err(Cause::OutOfRange { field: k })
            }
        }
    }
}

/// The vector of two fields, whose coordinates are of at most this size.
#[tactic(auto, unfolding(crate::specs::Values::vector_in))]
pub fn vector_in(row: &ByteRecord, k: u32, l: u32, most: u32) -> Result<V2, Cause>
    ensures value { result ≡ vector_in (fields_of row.now) k l most }
    ensures limits { IfOk result (λ v. IsWithin v most) }
{
    let x = coordinate_in(row, k, most)?;
    let y = coordinate_in(row, l, most)?;
    Ok(V2 { x, y })
}
