// "Lines of upper-case hexadecimal".
ghost use Rattle.std.specs.Prelude.{◌≡◌, ◌+◌, ◌*◌, ◌≤◌, ◌<◌, length, replicate};
ghost use Rattle.paper.specs.Layout.{digit, line_bytes};
ghost use Rattle.sheet_frames.specs.Said.{max_bytes, values_said, bytes_said, pair_value, Takes};

use crate::{BYTES, Bytes};

// The values of the bytes from 48 to 70 as digits, 16 where one is none. A table, since a branch guesses wrong where digits and letters take turns.
const VALUES: [u8; 23] = [
    0, 1, 2, 3, 4, 5, 6, 7, 8, 9, 16, 16, 16, 16, 16, 16, 16, 10, 11, 12, 13, 14, 15,
];

// The value of a digit, 16 where it is none, by the table, which is made once for a line.
fn value_in(values: &[u8; 23], d: u8) -> u8
    requires { values.now ≡ values_said }
    ensures { (result ≡ digit d) × (result ≤ 16) }
{
    if d < 48 {
        return 16;
    }
    if 70 < d {
        return 16;
    }
    values[(d - 48) as usize]
}

// The value of a digit, 16 where it is none.
pub fn value_of(d: u8) -> u8
    ensures { (result ≡ digit d) × (result ≤ 16) }
{
    let values = VALUES;
    value_in(&values, d)
}

// What two digits write, 256 where one is none.
fn pair(values: &[u8; 23], h: u8, l: u8) -> u16
    requires { values.now ≡ values_said }
    ensures { result ≡ pair_value h l }
{
    let a = value_in(values, h);
    let b = value_in(values, l);
    if 16 <= a {
        return 256;
    }
    if 16 <= b {
        return 256;
    }
    a as u16 * 16 + b as u16
}

// The bytes of a line into `out`, and how many they are: at most 64 digits, two to a byte, in one pass.
pub(crate) fn take_bytes(line: &[u8], out: &mut [u8; BYTES]) -> Option<usize>
    requires { out.old ≡ replicate max_bytes 0 }
    ensures { Takes line.now out.new result }
{
    let n = line.len();
    if paper::DIGITS < n {
        return None;
    }
    if n % 2 != 0 {
        return None;
    }
    let values = VALUES;
    let k = n / 2;
    for j in 0..k {
        let v = pair(&values, line[2 * j], line[2 * j + 1]);
        if 256 <= v {
            return None;
        }
        out[j] = v as u8;
    }
    Some(k)
}

// The bytes of a line.
pub fn bytes_of(line: &[u8]) -> Bytes
    ensures { (result ≡ bytes_said (line_bytes line.now)) × (result.length ≤ max_bytes) }
{
    let mut bytes = [0u8; BYTES];
    let Some(length) = take_bytes(line, &mut bytes) else {
        return Bytes {
            right: false,
            length: 0,
            bytes: [0; BYTES],
        };
    };
    Bytes {
        right: true,
        length,
        bytes,
    }
}
