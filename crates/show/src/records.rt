// The image's records: tag, length, payload. What is asked for beyond an end is 0, or nothing.
ghost use Rattle.std.specs.Prelude.{◌≤◌};

pub fn byte(bytes: &[u8], at: usize) -> u8 {
    bytes.get(at).copied().unwrap_or(0)
}

pub fn number(bytes: &[u8], at: usize) -> usize
    ensures { result ≤ 65535 }
{
    match rest(bytes, at) {
        [high, low, ..] => usize::from(u16::from_be_bytes([*high, *low])),
        [high] => usize::from(*high) * 256,
        [] => 0,
    }
}

// What follows the first bytes of a payload.
pub fn rest(payload: &[u8], from: usize) -> &[u8] {
    payload.get(from..).unwrap_or(&[])
}

// The payload of the record at a place.
pub fn payload(image: &[u8], at: usize) -> &[u8] {
    let [_, high, low, rest @ ..] = rest(image, at) else {
        return &[];
    };
    let size = u16::from_be_bytes([*high, *low]);
    rest.get(..usize::from(size)).unwrap_or(&[])
}
