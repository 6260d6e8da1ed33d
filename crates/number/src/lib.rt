// A number read from groups of seven bits, lowest group first, the top bit of a byte set where another follows, in the
// fewest bytes.
#![tactic(auto)]

ghost use Rattle.std.specs.Prelude.{◌≡◌, ◌≤◌, ◌<◌, ◌+◌, ◌*◌, ◌^◌};
ghost use Rattle.number.specs.Number as form;

use refusal::Refusal;

// A byte that none follows: 22 for a zero after others, else it ends the number.
#[tactic(auto, unfolding(crate::specs::Number::ends))]
fn ends(byte: u64, weight: u64, sum: u64, at: usize) -> Result<(u64, usize), Refusal>
    requires { (byte * weight ≤ 2 ^ 63) × (sum < 2 ^ 63) × (at + 1 < 2 ^ 64) }
    ensures { form.as_number result ≡ form.ends byte weight sum at }
{
    if (byte == 0) & (weight != 1) {
        return Err(Refusal::LastZero);
    }
    Ok((sum + byte * weight, at + 1))
}

// The tenth byte of a number: 23 where it is above 1.
#[tactic(auto, unfolding(crate::specs::Number::number_from))]
fn tenth(bytes: &[u8], at: usize, weight: u64, sum: u64) -> Result<(u64, usize), Refusal>
    requires { (weight ≤ 2 ^ 63) × (sum < weight) }
    ensures { form.as_number result ≡ form.number_from 0 bytes.now at weight sum }
{
    let Some(&byte) = bytes.get(at) else {
        return Err(Refusal::Cut);
    };
    if byte > 1 {
        return Err(Refusal::TenthByte);
    }
    ends(u64::from(byte), weight, sum, at)
}

// The number at a place of the bytes, byte by byte. Cold: the place stays in a register, then, where numbers are one byte.
#[cold]
fn read_long(bytes: &[u8], at: usize) -> Result<(u64, usize), Refusal>
    ensures { form.as_number result ≡ form.read_number bytes.now at }
{
    let mut place = at;
    let mut weight: u64 = 1;
    let mut sum: u64 = 0;
    for _ in 0..9u64 {
        let Some(&byte) = bytes.get(place) else {
            return Err(Refusal::Cut);
        };
        let byte = u64::from(byte);
        if byte < 128 {
            return ends(byte, weight, sum, place);
        }
        sum += byte % 128 * weight;
        weight *= 128;
        place += 1;
    }
    tenth(bytes, place, weight, sum)
}

// The number at a place of the bytes and the place behind it: read whole, or the reading stops with 21, 22 or 23. Most numbers
// of a script are one byte: these are read where they are asked for, without a call.
#[inline(always)]
pub fn read_number(bytes: &[u8], at: usize) -> Result<(u64, usize), Refusal>
    ensures { form.as_number result ≡ form.read_number bytes.now at }
{
    if let Some(&byte) = bytes.get(at) {
        if byte < 128 {
            return Ok((u64::from(byte), at + 1));
        }
    }
    read_long(bytes, at)
}
