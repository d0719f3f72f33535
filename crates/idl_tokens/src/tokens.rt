ghost use Rattle.std.specs.Prelude.{◌≡◌, ◌<◌, ◌≤◌, ◌+◌, ◌^◌, ◌&&◌, length, take, true};
ghost use Rattle.std.specs.Str.{bytes_eq};
ghost use Rattle.idl_tokens.specs.Tokens as spec;

use crate::classes::{Class, byte, is_in, is_printable, past};
use crate::numerals::is_numeral;

/// What a token is (OMG IDL 4.2, 7.2).
#[derive(Clone, Copy, Debug, PartialEq, Eq)]
pub enum TokenKind {
    /// A letter, then letters, digits and `_`.
    Word,
    /// A numeral, with `-` before it or not.
    Number,
    /// A printable ASCII character other than `'` and `\` between single quotes.
    Character,
    /// Printable ASCII characters other than `"` and `\` between double quotes.
    Quoted,
    /// `::` or one of `{ } ; ( ) , < > [ ] : @`.
    Mark,
    /// The text's end.
    End,
    /// What is no token: another octet, an open quote or comment, or a numeral with letters in it.
    Bad,
}

/// A token's kind and its length in octets.
#[derive(Clone, Copy, Debug)]
pub struct Token {
    pub kind: TokenKind,
    pub len: usize,
}

fn is_mark(b: u8) -> bool
    ensures { result ≡ spec.is_mark b }
{
    b == b'{'
        || b == b'}'
        || b == b';'
        || b == b'('
        || b == b')'
        || b == b','
        || b == b'<'
        || b == b'>'
        || b == b'['
        || b == b']'
        || b == b':'
        || b == b'@'
}

fn begins_numeral(text: &[u8]) -> bool
    ensures value { result ≡ spec.begins_numeral text.now }
    ensures some { result ≡ true → 0 < length text.now }
{
    byte(text, 0).is_ascii_digit() || (byte(text, 0) == b'-' && byte(text, 1).is_ascii_digit())
}

fn numeral(text: &[u8]) -> Token
    requires { spec.begins_numeral text.now ≡ true }
    ensures value { result ≡ spec.numeral text.now }
    ensures within { (1 ≤ result.len) × (result.len ≤ length text.now) }
{
    let len = past(Class::Run, text, 1);
    let kind = if is_numeral(&text[..len]) {
        TokenKind::Number
    } else {
        TokenKind::Bad
    };
    Token { kind, len }
}

fn character(text: &[u8]) -> Token
    requires { 0 < length text.now }
    ensures value { result ≡ spec.character text.now }
    ensures within { (1 ≤ result.len) × (result.len ≤ length text.now) }
{
    let b = byte(text, 1);
    if byte(text, 2) == b'\'' && is_printable(b) && b != b'\'' && b != b'\\' {
        Token {
            kind: TokenKind::Character,
            len: 3,
        }
    } else {
        Token {
            kind: TokenKind::Bad,
            len: 1,
        }
    }
}

fn quoted(text: &[u8]) -> Token
    requires { 0 < length text.now }
    ensures value { result ≡ spec.quoted text.now }
    ensures within { (1 ≤ result.len) × (result.len ≤ length text.now) }
{
    let end = past(Class::Inside, text, 1);
    if byte(text, end) == b'"' {
        Token {
            kind: TokenKind::Quoted,
            len: end + 1,
        }
    } else {
        Token {
            kind: TokenKind::Bad,
            len: 1,
        }
    }
}

fn mark(text: &[u8]) -> Token
    requires { 0 < length text.now }
    ensures value { result ≡ spec.mark text.now }
    ensures within { (1 ≤ result.len) × (result.len ≤ length text.now) }
{
    if byte(text, 0) == b':' && byte(text, 1) == b':' {
        return Token {
            kind: TokenKind::Mark,
            len: 2,
        };
    }
    let kind = if is_mark(byte(text, 0)) {
        TokenKind::Mark
    } else {
        TokenKind::Bad
    };
    Token { kind, len: 1 }
}

#[tactic(auto, unfolding(crate::specs::Tokens::token))]
fn front(text: &[u8]) -> Token
    ensures value { result ≡ spec.token text.now }
    ensures within { result.len ≤ length text.now }
{
    if text.is_empty() {
        return Token {
            kind: TokenKind::End,
            len: 0,
        };
    }
    if byte(text, 0).is_ascii_alphabetic() {
        return Token {
            kind: TokenKind::Word,
            len: past(Class::Run, text, 1),
        };
    }
    if begins_numeral(text) {
        return numeral(text);
    }
    if byte(text, 0) == b'\'' {
        return character(text);
    }
    if byte(text, 0) == b'"' {
        return quoted(text);
    }
    mark(text)
}

fn closing(mut text: &[u8]) -> usize
    requires { length text.now < 2 ^ 63 }
    ensures value { result ≡ spec.closing text.entry.now 2 }
    ensures within { result ≤ length text.entry.now + 2 }
{
    let mut at = 2;
    while let [b, rest @ ..] = text {
        if *b == b'*' && byte(rest, 0) == b'/' {
            return at + 2;
        }
        at += 1;
        text = rest;
    }
    0
}

#[tactic(auto, unfolding(crate::specs::Tokens::blank))]
fn blank(text: &[u8]) -> usize
    requires { length text.now < 2 ^ 63 }
    ensures value { result ≡ spec.blank text.now }
    ensures within { result ≤ length text.now }
{
    let (first, second) = (byte(text, 0), byte(text, 1));
    if is_in(Class::Blank, first) {
        return 1;
    }
    if first == b'/' && second == b'/' {
        return past(Class::Line, text, 2);
    }
    if first == b'/' && second == b'*' {
        return closing(&text[2..]);
    }
    0
}

/// The text from its first token on, and that token. Blanks are space, tab, CR and LF; comments are `//` up to the line's end and `/* */`.
#[tactic(auto, using(crate::proofs::Blanks::skip_stops, crate::proofs::Blanks::skip_goes))]
pub fn skip(mut text: &[u8]) -> (&[u8], Token)
    requires { length text.now < 2 ^ 63 }
    ensures rest { result.0.now ≡ spec.skip text.entry.now }
    ensures shorter { length result.0.now ≤ length text.entry.now }
    ensures token { result.1 ≡ spec.token result.0.now }
    ensures within { result.1.len ≤ length result.0.now }
{
    loop {
        let len = blank(text);
        if len == 0 {
            return (text, front(text));
        }
        text = &text[len..];
    }
}

/// Whether two texts are equal.
pub fn same(a: &[u8], b: &[u8]) -> bool
    ensures { result ≡ bytes_eq a.now b.now }
{
    a == b
}

/// Whether the token at the front of `ahead` is this word or mark.
pub fn is_seen(ahead: &[u8], front: Token, spelling: &[u8]) -> bool
    requires { front.len ≤ length ahead.now }
    ensures { result ≡ (spec.is_word_or_mark front.kind && bytes_eq (take front.len ahead.now) spelling.now) }
{
    match front.kind {
        TokenKind::Word | TokenKind::Mark => same(&ahead[..front.len], spelling),
        TokenKind::Number
        | TokenKind::Character
        | TokenKind::Quoted
        | TokenKind::End
        | TokenKind::Bad => false,
    }
}
