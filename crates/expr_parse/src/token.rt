ghost use Rattle.std.specs.Prelude.{◌≡◌, ◌+◌, ◌<◌, ◌≤◌, ◌^◌, ℕ, ◌⊎◌, [], ◌∷◌, ◌++◌, Err, IfOk, IfErr, IfSome, MatchOption, Ok, OnOk, length, map, take};
ghost use Rattle.std.specs.Char.{is_ascii_digit};
ghost use Rattle.std.specs.List.{prefix_len};
ghost use Rattle.std.specs.Str.{bytes_eq};
ghost use Rattle.semantics.specs.Most.{most_text};
ghost use Rattle.semantics.specs.Names.{is_word_byte};
ghost use Rattle.expr_parse.specs.Lexemes.{lexeme_of, lexeme_of_bytes, magnitude_in, reserved_lexeme, sign_lexeme, word_lexeme};
ghost use Rattle.expr_parse.specs.Tokens.{front, is_sign, tokens_of, AreInOrder};

use crate::error::ParseErr;
use crate::lexeme::Lexeme;
use crate::magnitude::Magnitude;
use expr::{Name, is_word_byte};
use num_text::{is_blank, read_i128};
use std::alloc::Global;

/// The most bytes of a word.
const MOST_WORD: usize = 32;

#[derive(Clone, Copy, Debug, PartialEq, Eq)]
pub enum Kind {
    Word,
    Number,
    Sign,
}

/// A token: the bytes of the text from `from` to before `to`.
#[derive(Clone, Copy, Debug, PartialEq, Eq)]
pub struct Token {
    pub kind: Kind,
    pub from: u32,
    pub to: u32,
}

fn is_sign(byte: u8) -> bool
    ensures { result ≡ is_sign byte }
{
    byte == b'(' || byte == b')' || byte == b',' || byte == b'+' || byte == b'-' || byte == b'*'
}

#[tactic(auto, using(crate::proofs::Scanned::word_within))]
fn word_length(text: &[u8]) -> usize
    ensures within { result ≤ length text.now }
    ensures value { result ≡ prefix_len is_word_byte text.now }
{
    text.iter().take_while(|byte| is_word_byte(**byte)).count()
}

#[tactic(auto, using(crate::proofs::Scanned::digits_within))]
fn digits_length(text: &[u8]) -> usize
    ensures within { result ≤ length text.now }
    ensures value { result ≡ prefix_len is_ascii_digit text.now }
{
    text.iter().take_while(|byte| byte.is_ascii_digit()).count()
}

/// The token at the front, and its length.
#[tactic(auto, unfolding(crate::specs::Tokens::front))]
fn front(text: &[u8]) -> Option<(Kind, usize)>
    ensures value { result ≡ front text.now }
    ensures within { IfSome result (λ r. (0 < r.1) × (r.1 ≤ length text.now)) }
{
    let first = *text.first()?;
    if first.is_ascii_alphabetic() {
        let n = word_length(text);
        return if n <= MOST_WORD {
            Some((Kind::Word, n))
        } else {
            None
        };
    }
    if first.is_ascii_digit() {
        let n = digits_length(text);
        return if read_i128(&text[..n]).is_some() {
            Some((Kind::Number, n))
        } else {
            None
        };
    }
    if is_sign(first) {
        Some((Kind::Sign, 1))
    } else {
        None
    }
}

/// What a token with these bytes says.
fn lexeme_at(kind: Kind, bytes: &[u8]) -> Lexeme
    ensures { result ≡ lexeme_of_bytes kind bytes.now }
{
    match kind {
        Kind::Word => word_lexeme(bytes),
        Kind::Number => Lexeme::Number(magnitude_in(bytes)),
        Kind::Sign => sign_lexeme(bytes),
    }
}

fn word_lexeme(bytes: &[u8]) -> Lexeme
    ensures { result ≡ word_lexeme bytes.now }
{
    match Name::of(bytes) {
        Some(name) => Lexeme::Named(name),
        None => reserved_lexeme(bytes),
    }
}

fn is_text(bytes: &[u8], text: &str) -> bool
    ensures { result ≡ bytes_eq bytes.now text.now }
{
    bytes == text.as_bytes()
}

fn reserved_lexeme(bytes: &[u8]) -> Lexeme
    ensures { result ≡ reserved_lexeme bytes.now }
{
    if is_text(bytes, "sum") {
        return Lexeme::Sum;
    }
    if is_text(bytes, "varnum") {
        return Lexeme::VarNum;
    }
    if is_text(bytes, "covnum") {
        return Lexeme::CovNum;
    }
    if is_text(bytes, "const") {
        return Lexeme::Const;
    }
    Lexeme::Shift
}

#[tactic(auto, using(crate::proofs::Scanned::number_in_small))]
fn magnitude_in(digits: &[u8]) -> Magnitude
    ensures { result ≡ magnitude_in digits.now }
{
    match read_i128(digits) {
        Some(v) => Magnitude::of(v.unsigned_abs()),
        None => Magnitude::of(0),
    }
}

fn sign_lexeme(bytes: &[u8]) -> Lexeme
    ensures { result ≡ sign_lexeme bytes.now }
{
    if is_text(bytes, "(") {
        return Lexeme::Open;
    }
    if is_text(bytes, ")") {
        return Lexeme::Close;
    }
    if is_text(bytes, ",") {
        return Lexeme::Comma;
    }
    if is_text(bytes, "+") {
        return Lexeme::Plus;
    }
    if is_text(bytes, "-") {
        return Lexeme::Minus;
    }
    Lexeme::Times
}

/// The first byte, and those behind it.
fn next_byte(text: &[u8]) -> Option<(u8, &[u8])>
    ensures { MatchOption result (text.now ≡ []) (λ r. text.now ≡ r.0 ∷ r.1.now) }
{
    match text {
        [first, rest @ ..] => Some((*first, rest)),
        [] => None,
    }
}

fn put_token(out: &mut Vec<Token>, token: Token) -> Result<(), ParseErr>
    ensures ok { OnOk result (out.new.items ≡ out.old.items ++ token ∷ []) }
    ensures memory { IfErr result (λ e. e ≡ ParseErr.Memory) }
{
    out.push(token)?;
    Ok(())
}

fn put_lexeme(said: &mut Vec<Lexeme>, lexeme: Lexeme) -> Result<(), ParseErr>
    ensures ok { OnOk result (said.new.items ≡ said.old.items ++ lexeme ∷ []) }
    ensures memory { IfErr result (λ e. e ≡ ParseErr.Memory) }
{
    said.push(lexeme)?;
    Ok(())
}

/// The tokens of a text, and what each says.
#[derive(Drop)]
pub(crate) struct Scanned {
    pub(crate) tokens: Vec<Token>,
    pub(crate) lexemes: Vec<Lexeme>,
}

pub(crate) fn scan(alloc: Global, text: &[u8]) -> Result<Scanned, ParseErr>
    requires { length text.now ≤ most_text }
    ensures tokens { IfOk result (λ s. tokens_of text.now ≡ Ok s.tokens.items) }
    ensures lexemes { IfOk result (λ s. s.lexemes.items ≡ map (lexeme_of text.now) s.tokens.items) }
    ensures order { IfOk result (λ s. AreInOrder 0 s.tokens.items (length text.now)) }
    ensures refused { IfErr result (λ e.
        (e ≡ ParseErr.Memory)
        ⊎ ((place : ℕ) × (e ≡ ParseErr.At place) × (tokens_of text.now ≡ Err place))) }
{
    let mut out = Vec::new(alloc);
    let mut said = Vec::new(alloc);
    let mut place: usize = 0;
    let mut rest = text;
    while let Some((c, behind)) = next_byte(rest) {
        if is_blank(c) {
            rest = behind;
            place += 1;
        } else {
            match front(rest) {
                Some((kind, n)) => {
                    let token = Token {
                        kind,
                        from: place as u32,
                        to: (place + n) as u32,
                    };
                    let (bytes, further) = rest.split_at(n);
                    put_token(&mut out, token)?;
                    put_lexeme(&mut said, lexeme_at(kind, bytes))?;
                    rest = further;
                    place += n;
                }
                None => return Err(ParseErr::At(place as u32)),
            }
        }
    }
    Ok(Scanned {
        tokens: out,
        lexemes: said,
    })
}
