//! Classes of bytes.

ghost use Rattle.std.specs.Prelude.{◌≡◌, not, ◌==◌};
ghost use Rattle.std.specs.List.{prefix_len};
ghost use Rattle.lx_token.specs.Bytes.{is_digit, is_letter, is_name_byte, digit_value, is_digit_in, is_opening, is_closing, is_operator, is_operator_pair, begins, is_line_end, begins_line_end};
ghost use Rattle.lx_token.specs.Lexemes.{comment_len};

#[tactic(auto, unfolding(crate::specs::Bytes::is_digit))]
pub(crate) fn is_digit(byte: u8) -> bool
    ensures { result ≡ is_digit byte }
{
    byte >= b'0' && byte <= b'9'
}

#[tactic(auto, unfolding(crate::specs::Bytes::is_letter))]
pub(crate) fn is_letter(byte: u8) -> bool
    ensures { result ≡ is_letter byte }
{
    (byte >= b'a' && byte <= b'z') || (byte >= b'A' && byte <= b'Z') || byte == b'_'
}

#[tactic(auto, unfolding(crate::specs::Bytes::is_name_byte))]
pub(crate) fn is_name_byte(byte: u8) -> bool
    ensures { result ≡ is_name_byte byte }
{
    is_letter(byte) || is_digit(byte)
}

#[tactic(auto, unfolding(crate::specs::Bytes::digit_value, crate::specs::Bytes::is_digit))]
pub(crate) fn digit_value(byte: u8) -> u8
    ensures { result ≡ digit_value byte }
{
    match byte {
        b'0'..=b'9' => byte - b'0',
        b'a'..=b'f' => byte - b'a' + 10,
        b'A'..=b'F' => byte - b'A' + 10,
        _ => 16,
    }
}

#[tactic(auto, unfolding(crate::specs::Bytes::is_digit_in))]
pub(crate) fn is_digit_in(base: u8, byte: u8) -> bool
    ensures { result ≡ is_digit_in base byte }
{
    digit_value(byte) < base
}

#[tactic(auto, unfolding(crate::specs::Bytes::is_opening))]
pub(crate) fn is_opening(byte: u8) -> bool
    ensures { result ≡ is_opening byte }
{
    b"([{".contains(&byte)
}

#[tactic(auto, unfolding(crate::specs::Bytes::is_closing))]
pub(crate) fn is_closing(byte: u8) -> bool
    ensures { result ≡ is_closing byte }
{
    b")]}".contains(&byte)
}

#[tactic(auto, unfolding(crate::specs::Bytes::is_operator))]
pub(crate) fn is_operator(byte: u8) -> bool
    ensures { result ≡ is_operator byte }
{
    b"+-*%&|^~<>=,:.".contains(&byte)
}

#[tactic(auto, unfolding(crate::specs::Bytes::is_operator_pair, crate::specs::Bytes::operator_pairs))]
pub(crate) fn is_operator_pair(first: u8, second: u8) -> bool
    ensures { result ≡ is_operator_pair first second }
{
    let pairs = [
        *b"//", *b"**", *b"<<", *b">>", *b"<=", *b"==", *b"!=", *b">=", *b"+=",
    ];
    pairs.contains(&[first, second])
}

// Whether LF stands at the front.
pub(crate) fn begins_with_feed(bytes: &[u8]) -> bool
    ensures { result ≡ begins is_line_end bytes.now }
{
    match bytes {
        [] => false,
        [first, ..] => *first == b'\n',
    }
}

// Whether LF, or CR and LF, stands at the front.
pub(crate) fn begins_line_end(bytes: &[u8]) -> bool
    ensures { result ≡ begins_line_end bytes.now }
{
    match bytes {
        [] => false,
        [first, rest @ ..] => *first == b'\n' || (*first == b'\r' && begins_with_feed(rest)),
    }
}

// Whether a name could go on at the front.
pub(crate) fn begins_with_name_byte(bytes: &[u8]) -> bool
    ensures { result ≡ begins is_name_byte bytes.now }
{
    match bytes {
        [] => false,
        [first, ..] => is_name_byte(*first),
    }
}

// The bytes at the front that may stand in a name.
pub(crate) fn name_len(bytes: &[u8]) -> usize
    ensures { result ≡ prefix_len is_name_byte bytes.now }
{
    for (i, byte) in bytes.iter().enumerate() {
        if !is_name_byte(*byte) {
            return i;
        }
    }
    bytes.len()
}

// The bytes up to the end of the line.
pub(crate) fn comment_len(bytes: &[u8]) -> usize
    ensures { result ≡ comment_len bytes.now }
{
    for (i, byte) in bytes.iter().enumerate() {
        if *byte == b'\n' {
            return i;
        }
    }
    bytes.len()
}
