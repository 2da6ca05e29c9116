// The class of a byte, and the next token of a text.
ghost use Rattle.std.specs.Prelude.{◌≡◌, ◌≤◌, length};
ghost use Rattle.syntax.specs.Class.{class_of};
ghost use Rattle.syntax.specs.Code.{decode};
ghost use Rattle.syntax.specs.Descent.{PastSpaces, NextToken, Comes};

#[derive(Clone, Copy, PartialEq, Eq)]
pub enum Class {
    Foreign,
    Closing,
    And,
    Or,
    Implies,
    Equals,
    Blank,
    Not,
    Opening,
    Falsum,
    // By its number from a on.
    Letter(u8),
}

// By comparing, one stretch of bytes after the other: of more cases in one match the compiler would make a table again.
pub fn class_of(b: u8) -> Class
    ensures { decode result ≡ class_of b }
{
    if b < b'(' {
        return match b {
            b' ' => Class::Blank,
            b'&' => Class::And,
            _ => Class::Foreign,
        };
    }
    if b < b'0' {
        return match b {
            b'(' => Class::Opening,
            b')' => Class::Closing,
            _ => Class::Foreign,
        };
    }
    if b < b'a' {
        return match b {
            b'0' => Class::Falsum,
            b'=' => Class::Equals,
            b'>' => Class::Implies,
            _ => Class::Foreign,
        };
    }
    if b <= b'z' {
        return Class::Letter(b - b'a');
    }
    match b {
        b'|' => Class::Or,
        b'~' => Class::Not,
        _ => Class::Foreign,
    }
}

// The first position from `at` on that is no space. Every caller's position is in the text.
pub fn past_spaces(s: &[u8], at: usize) -> usize
    requires { at ≤ length s.now }
    ensures { PastSpaces s.now at result }
{
    for i in at..s.len() {
        if s[i] != b' ' {
            return i;
        }
    }
    s.len()
}

#[derive(Clone, Copy)]
pub struct Token {
    pub class: Class,
    pub next: usize,
}

// The first token from a position on; past the last, a foreign one.
pub fn next_token(s: &[u8], at: usize) -> Token
    requires { at ≤ length s.now }
    ensures { NextToken s.now at result }
{
    let i = past_spaces(s, at);
    if i < s.len() {
        return Token {
            class: class_of(s[i]),
            next: i + 1,
        };
    }
    Token {
        class: Class::Foreign,
        next: i,
    }
}

// The position after a token of this class, where one comes next.
pub fn after(s: &[u8], at: usize, class: Class) -> Option<usize>
    requires { at ≤ length s.now }
    ensures { Comes s.now at (decode class) result }
{
    let i = past_spaces(s, at);
    if i < s.len() && class_of(s[i]) == class {
        return Some(i + 1);
    }
    None
}
