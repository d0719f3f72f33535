ghost use Rattle.std.specs.Prelude.{◌≡◌, ◌≢◌, ◌<◌, ◌≤◌, ◌-◌, ◌+◌, length, drop, slice_index};
ghost use Rattle.idl_tokens.specs.Classes as spec;

#[derive(Clone, Copy)]
pub(crate) enum Class {
    Blank,
    Run,
    Decimal,
    Octal,
    Hex,
    Line,
    Inside,
}

pub(crate) fn is_printable(b: u8) -> bool
    ensures { result ≡ spec.is_printable b }
{
    32 <= b && b <= 126
}

pub(crate) fn is_in(class: Class, b: u8) -> bool
    ensures { result ≡ spec.is_in class b }
{
    match class {
        Class::Blank => b == b' ' || b == b'\t' || b == b'\n' || b == b'\r',
        Class::Run => b.is_ascii_alphanumeric() || b == b'_',
        Class::Decimal => b.is_ascii_digit(),
        Class::Octal => b'0' <= b && b <= b'7',
        Class::Hex => b.is_ascii_hexdigit(),
        Class::Line => b != b'\n',
        Class::Inside => is_printable(b) && b != b'"' && b != b'\\',
    }
}

pub(crate) fn byte(text: &[u8], at: usize) -> u8
    ensures value { result ≡ slice_index text.now at }
    ensures within { result ≢ 0 → at < length text.now }
{
    if at < text.len() { text[at] } else { 0 }
}

pub(crate) fn past(class: Class, text: &[u8], at: usize) -> usize
    requires { at ≤ length text.now }
    ensures value { result ≡ spec.past class text.now at }
    ensures within { (at ≤ result) × (result ≤ length text.now) }
{
    let mut end = at;
    while end < text.len() && is_in(class, text[end]) {
        end += 1;
    }
    end
}

pub(crate) fn is_all(class: Class, text: &[u8], at: usize) -> bool
    requires { at ≤ length text.now }
    ensures { result ≡ spec.is_all class text.now at }
{
    past(class, text, at) == text.len()
}
