// Numbers as text: `0`, or one to nine digits without a leading zero, with `-` before a negative one.
ghost use Rattle.std.specs.Prelude.{◌≡◌, ◌+◌, ◌-◌, ◌*◌, ◌^◌, ◌<◌, ◌≤◌, not, ◌&&◌, ltb, length, take, drop, IfSome, if◌then◌else◌, Some, None, decimal, ◌==◌, nat_le, nat_lt};
ghost use Rattle.measures.specs.Values.{RowValue};
ghost use Rattle.std.specs.Char.{is_ascii_digit};
ghost use Rattle.text.specs.Numbers.{read_on, unsigned, number, positive, negative, front, digits_front, written, over, has_room, Exactly};

// The most digits that a number in a text has.
pub const MOST_DIGITS: usize = 9;

// Digits at the front of a text: how many, and the number that they write. That this is below 10^9 is said by contracts
// and not here: the fields are public, and an invariant would ask it of whoever makes one.
#[derive(Clone, Copy)]
pub struct Digits {
    pub count: usize,
    pub value: u32,
}

// The front of a text that may be a number: how many bytes, and the number if it is one.
#[derive(Clone, Copy)]
pub struct Front {
    pub length: usize,
    pub number: Option<i32>,
}

// Whether a byte is a decimal digit.
fn is_digit(byte: u8) -> bool
    ensures { result ≡ is_ascii_digit byte }
{
    byte.is_ascii_digit()
}

// The number written by a digit after others.
fn with_digit(value: u32, digit: u8) -> u32
    requires small { value < 10 ^ 8 }
    requires digit { (48 ≤ digit) × (digit ≤ 57) }
    ensures { result ≡ value * 10 + (digit - 48) }
{
    value * 10 + u32::from(digit - b'0')
}

// The digits at the front of a text, nine at most: stops at the first byte that is none.
pub fn front_digits(text: &[u8]) -> Digits
    ensures count { result.count ≡ length (digits_front 9 text.now) }
    ensures value { result.value ≡ read_on 0 (digits_front 9 text.now) }
    ensures small { result.value < 10 ^ 9 }
    ensures within { result.count ≤ length text.now }
{
    let front = &text[..text.len().min(MOST_DIGITS)];
    let mut value = 0;
    for (count, byte) in front.iter().enumerate() {
        if !is_digit(*byte) {
            return Digits { count, value };
        }
        value = with_digit(value, *byte);
    }
    Digits {
        count: front.len(),
        value,
    }
}

// Whether digits may begin so: with 0 only where it stands alone.
fn begins_well(first: u8, count: usize) -> bool
    ensures { result ≡ not (first == 48 && nat_lt 1 count) }
{
    !(first == b'0' && count > 1)
}

// The number without sign that a text's digits in front write, if they write one.
fn plain_number(text: &[u8], digits: Digits) -> Option<u32>
    requires count { digits.count ≡ length (digits_front 9 text.now) }
    requires value { digits.value ≡ read_on 0 (digits_front 9 text.now) }
    requires small { digits.value < 10 ^ 9 }
    ensures value { result ≡ unsigned (digits_front 9 text.now) }
    ensures small { IfSome result (λ n. n < 10 ^ 9) }
{
    if digits.count > 0 && begins_well(text[0], digits.count) {
        return Some(digits.value);
    }
    None
}

// A number without sign taken as it is.
fn positive_number(n: Option<u32>) -> Option<i32>
    requires { IfSome n (λ m. m < 10 ^ 9) }
    ensures { result ≡ positive n }
{
    n.map(u32::cast_signed)
}

// A number without sign taken below zero; there is no negative zero.
fn negative_number(n: Option<u32>) -> Option<i32>
    requires { IfSome n (λ m. m < 10 ^ 9) }
    ensures { result ≡ negative n }
{
    match n {
        None | Some(0) => None,
        Some(n) => Some(-n.cast_signed()),
    }
}

// The front of a text that may be a number: a minus sign, if there is one, and digits, nine at most.
pub fn front_number(text: &[u8]) -> Front
    ensures length { result.length ≡ length (front text.now) }
    ensures number { result.number ≡ number (front text.now) }
    ensures within { result.length ≤ length text.now }
{
    if let [b'-', rest @ ..] = text {
        let digits = front_digits(rest);
        let number = negative_number(plain_number(rest, digits));
        return Front {
            length: 1 + digits.count,
            number,
        };
    }
    let digits = front_digits(text);
    let number = positive_number(plain_number(text, digits));
    Front {
        length: digits.count,
        number,
    }
}

// The number of a word by its front: none if the word goes on after it.
fn of_whole(front: Front, length: usize) -> Option<i32>
    ensures { result ≡ (if ltb front.length length then None else front.number) }
{
    if front.length < length {
        None
    } else {
        front.number
    }
}

// The number that a word writes, if it writes one.
pub fn read_number(word: &[u8]) -> Option<i32>
    ensures value { result ≡ number word.now }
    ensures exactly { Exactly word.now result }
{
    of_whole(front_number(word), word.len())
}

// The number without sign that a word writes, if it writes one.
pub fn read_unsigned(word: &[u8]) -> Option<u32>
    ensures value { result ≡ unsigned word.now }
    ensures small { IfSome result (λ n. n < 10 ^ 9) }
{
    let digits = front_digits(word);
    if digits.count < word.len() {
        return None;
    }
    plain_number(word, digits)
}

// Whether bytes fit into a buffer from a place on.
fn fits(at: usize, count: usize, length: usize) -> bool
    ensures { result ≡ nat_le (at + count) length }
{
    at <= length && count <= length - at
}

// Puts bytes into a buffer from a place on, and answers the place after them.
// Without room for all of them nothing is written.
fn put(bytes: &[u8], buffer: &mut [u8], at: usize) -> Option<usize>
    ensures answer { result ≡ (if has_room at bytes.now buffer.old then Some (at + length bytes.now) else None) }
    ensures bytes { buffer.new ≡ (if has_room at bytes.now buffer.old then over at bytes.now buffer.old else buffer.old) }
{
    if !fits(at, bytes.len(), buffer.len()) {
        return None;
    }
    let end = at + bytes.len();
    buffer[at..end].copy_from_slice(bytes);
    Some(end)
}

// The byte of a digit.
fn digit_byte(digit: u64) -> u8
    requires { digit < 10 }
    ensures { result ≡ 48 + digit }
{
    // below ten, so that `as` is proved to lose nothing
    b'0' + digit as u8
}

// Puts a number of three digits at most into a buffer from a place on, as `put` does. Most numbers of a standing are so short,
// and to copy so few bytes from another buffer takes several times as long as to find them.
fn put_short(n: u64, buffer: &mut [u8], at: usize) -> Option<usize>
    requires { n < 1000 }
    ensures answer { result ≡ (if has_room at (decimal n) buffer.old then Some (at + length (decimal n)) else None) }
    ensures bytes { buffer.new ≡ (if has_room at (decimal n) buffer.old then over at (decimal n) buffer.old else buffer.old) }
{
    if n < 10 {
        return put(&[digit_byte(n)], buffer, at);
    }
    let ones = digit_byte(n % 10);
    if n < 100 {
        return put(&[digit_byte(n / 10), ones], buffer, at);
    }
    put(
        &[digit_byte(n / 100), digit_byte(n / 10 % 10), ones],
        buffer,
        at,
    )
}

// Writes a number in decimal into a buffer from a place on, and answers the place after it.
// Without room for all of it nothing is written.
pub fn write_number(value: i64, buffer: &mut [u8], at: usize) -> Option<usize>
    ensures answer { result ≡ (if has_room at (written value) buffer.old then Some (at + length (written value)) else None) }
    ensures bytes { buffer.new ≡ (if has_room at (written value) buffer.old then over at (written value) buffer.old else buffer.old) }
    ensures back { RowValue value → IfSome result (λ end. number (take (end - at) (drop at buffer.new)) ≡ Some value) }
{
    if (0..1000).contains(&value) {
        return put_short(value.cast_unsigned(), buffer, at);
    }
    let mut digits = itoa::Buffer::new();
    put(digits.format(value).as_bytes(), buffer, at)
}
