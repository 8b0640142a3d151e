//! The values of a record, which `csv` calls fields.

ghost use Rattle.std.specs.Prelude.{◌≡◌, ◌≢◌, ◌∷◌, [], IfNone, IfSome, length};
ghost use Rattle.csv.specs.Records.{fields_of};

use csv::ByteRecord;

/// Returns the values of a record that has four, or `None` exactly where it has another number of them.
pub fn four_fields(row: &ByteRecord) -> Option<(&[u8], &[u8], &[u8], &[u8])>
    ensures some { IfSome result (λ f. fields_of row.now ≡ f.0.now ∷ f.1.now ∷ f.2.now ∷ f.3.now ∷ []) }
    ensures none { IfNone result (length (fields_of row.now) ≢ 4) }
{
    if row.len() != 4 {
        return None;
    }
    let first = row.get(0)?;
    let second = row.get(1)?;
    let third = row.get(2)?;
    let fourth = row.get(3)?;
    Some((first, second, third, fourth))
}

/// Returns the values of a record that has five, or `None` exactly where it has another number of them.
pub fn five_fields(row: &ByteRecord) -> Option<(&[u8], &[u8], &[u8], &[u8], &[u8])>
    ensures some { IfSome result (λ f. fields_of row.now ≡ f.0.now ∷ f.1.now ∷ f.2.now ∷ f.3.now ∷ f.4.now ∷ []) }
    ensures none { IfNone result (length (fields_of row.now) ≢ 5) }
{
    if row.len() != 5 {
        return None;
    }
    let first = row.get(0)?;
    let second = row.get(1)?;
    let third = row.get(2)?;
    let fourth = row.get(3)?;
    let fifth = row.get(4)?;
    Some((first, second, third, fourth, fifth))
}

/// The values of a record that has seven.
#[derive(Clone, Copy)]
pub struct Seven<'a> {
    pub first: &'a [u8],
    pub second: &'a [u8],
    pub third: &'a [u8],
    pub fourth: &'a [u8],
    pub fifth: &'a [u8],
    pub sixth: &'a [u8],
    pub seventh: &'a [u8],
}

/// Returns the values of a record that has seven, or `None` exactly where it has another number of them.
pub fn seven_fields(row: &ByteRecord) -> Option<Seven<'_>>
    ensures some { IfSome result (λ f. fields_of row.now ≡ f.first.now ∷ f.second.now ∷ f.third.now ∷ f.fourth.now
        ∷ f.fifth.now ∷ f.sixth.now ∷ f.seventh.now ∷ []) }
    ensures none { IfNone result (length (fields_of row.now) ≢ 7) }
{
    if row.len() != 7 {
        return None;
    }
    let first = row.get(0)?;
    let second = row.get(1)?;
    let third = row.get(2)?;
    let fourth = row.get(3)?;
    let fifth = row.get(4)?;
    let sixth = row.get(5)?;
    let seventh = row.get(6)?;
    Some(Seven {
        first,
        second,
        third,
        fourth,
        fifth,
        sixth,
        seventh,
    })
}
