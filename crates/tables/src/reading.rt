// Cutting a table's bytes into records.
ghost use Rattle.std.specs.Prelude.{◌≡◌, ◌+◌, ◌<◌, ◌≤◌, length, get_or};
ghost use Rattle.tables.specs.Check.{most_bytes, most_records};
ghost use Rattle.tables.specs.Shapes.{length_rows};
ghost use Rattle.tables.specs.Reading.{Packs, Measured, CutOut};

use crate::shape::{LENGTHS, Lengths, is_fit};
use crate::{Fault, HEADING, Index, MOST_RECORDS, Rule, kinds};
use integers::bytes::read16;

// The byte of a record that its entry in the index has.
const NOTED: usize = HEADING + 1;

// How many numbers the parts of an entry can hold: a place, a kind.
pub(crate) const PLACES: usize = 65536;

pub(crate) const KINDS: usize = 256;

// The length of an integer literal, which is the one that its row in the table of lengths has, and its length and kind as one number.
const INTEGER_LENGTH: usize = HEADING + u16::trailing_zeros(LENGTHS[kinds::INTEGER]) as usize;

const INTEGER_HEADING: usize = INTEGER_LENGTH + 65536 * kinds::INTEGER;

// The length of the record at the start of the part; none where rule 4 finds a fault.
pub fn measure(lengths: &Lengths, part: &[u8]) -> Option<usize>
    requires lengths_known { lengths.now ≡ length_rows }
    requires not_empty { 0 < length part.now }
    ensures { Measured part.now result }
{
    if part.len() < HEADING {
        return None;
    }
    let len = read16(part, 0);
    let kind = read16(part, 2);
    // Most records are integer literals, whose only length is known.
    if len + 65536 * kind == INTEGER_HEADING {
        return (INTEGER_LENGTH <= part.len()).then_some(INTEGER_LENGTH);
    }
    if len < HEADING || part.len() < len {
        return None;
    }
    is_fit(lengths, part, kind, len).then_some(len)
}

// The second field of the record of a length at the start of the part; 0 where it has none.
fn second_field(part: &[u8], len: usize) -> usize
    requires { len ≤ length part.now }
    ensures { (5 < len → result ≡ get_or part.now 5 0) × (result < 256) }
{
    if len <= NOTED {
        return 0;
    }
    usize::from(part[NOTED])
}

// The entry of the record of a length at the start of the part, which begins at a place of the table.
fn entry(part: &[u8], at: usize, len: usize) -> u32
    requires { (at < 65536) × (4 ≤ len) × (len ≤ length part.now) }
    ensures { Packs part.now at len result }
{
    let kind = usize::from(part[2]);
    let second = second_field(part, len);
    (at + PLACES * (kind + KINDS * second)) as u32
}

// Cuts a table into records, counts them, and notes each of the first 200 in the index. What stands behind their entries stays.
pub fn cut(table: &[u8], index: &mut Index) -> Result<usize, Fault>
    requires { (length table.now ≤ most_bytes) × (length index.old ≡ most_records) }
    ensures { CutOut table.now index.old index.new result }
{
    let lengths = LENGTHS;
    let mut at = 0;
    let mut count = 0;
    while at < table.len() {
        let Some(len) = measure(&lengths, &table[at..]) else {
            return Err(Fault {
                rule: Rule::UnfitRecord,
                place: count,
            });
        };
        let e = entry(&table[at..], at, len);
        if count < MOST_RECORDS {
            index[count] = e;
        }
        at += len;
        count += 1;
    }
    Ok(count)
}
