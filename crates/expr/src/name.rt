ghost use Rattle.std.specs.Prelude.{◌≡◌, IfSome, IsTrue, is_some};
ghost use Rattle.std.specs.List.{list_all};
ghost use Rattle.std.specs.Hash as fed;
ghost use Rattle.std.specs.Cmp.Rules.{comparing, hashing};
ghost use Rattle.std.proofs.Common.{rules};
ghost use Rattle.semantics.specs.Names.{begins_with_letter, is_name, is_reserved, is_word, is_word_byte, same_name};

use std::hash::{Hash, Hasher};
use std::marker::Model;

/// The most bytes of a word.
const MOST_WORD: usize = 32;

/// A letter, and then letters, digits and `_`, 1 to 32 bytes in all, and no word of the query language.
#[derive(Clone, Copy, Debug)]
pub struct Name {
    len: u8,
    bytes: [u8; MOST_WORD],
}

impl Model for Name {
    ghost use Rattle.std.specs.Prelude.{List, ℕ};

    ghost Value = { List ℕ };

    ghost use Rattle.expr.specs.NameFields.{text_of, IsNameFields, fields_of, fields_of-text_of};

    ghost view = { text_of };

    ghost invariant = { IsNameFields };

    ghost inverse = { fields_of };

    ghost inverse_ok = { fields_of-text_of };
}

impl PartialEq for Name {
    ghost eq = { λ a b. same_name a b };

    ghost laws = { Prim.search (comparing, rules) };

    fn eq(&self, other: &Name) -> bool {
        self.bytes() == other.bytes()
    }
}

impl Eq for Name {
    ghost laws = { Prim.search (comparing, rules) };
}

impl Hash for Name {
    ghost hash_input = { λ a. fed.slice fed.u8 a };

    ghost respects_eq = { Prim.search (hashing, rules) };

    fn hash<H: Hasher>(&self, state: &mut H) {
        self.bytes().hash(state);
    }
}

impl Name {
    /// The name with these bytes, or none where they are no name.
    pub fn of(bytes: &[u8]) -> Option<Name>
        ensures name { is_some result ≡ is_name bytes.now }
        ensures bytes { IfSome result (λ name. name ≡ bytes.now) }
    {
        if !is_word(bytes) || is_reserved(bytes) {
            return None;
        }
        let len = bytes.len();
        let mut padded = [0u8; MOST_WORD];
        padded[..len].copy_from_slice(bytes);
        Some(Name {
            len: len as u8,
            bytes: padded,
        })
    }

    pub fn bytes(&self) -> &[u8]
        ensures value { result.now ≡ self.now }
        ensures name { IsTrue (is_name self.now) }
    {
        &self.bytes[..self.len as usize]
    }
}

/// Whether a byte is a letter, a digit or `_`.
pub fn is_word_byte(byte: u8) -> bool
    ensures { result ≡ is_word_byte byte }
{
    byte.is_ascii_alphabetic() || byte.is_ascii_digit() || byte == b'_'
}

fn begins_with_letter(bytes: &[u8]) -> bool
    ensures { result ≡ begins_with_letter bytes.now }
{
    match bytes {
        [] => false,
        [first, ..] => first.is_ascii_alphabetic(),
    }
}

fn has_word_bytes(bytes: &[u8]) -> bool
    ensures { result ≡ list_all is_word_byte bytes.now }
{
    bytes.iter().all(|byte| is_word_byte(*byte))
}

fn is_word(bytes: &[u8]) -> bool
    ensures { result ≡ is_word bytes.now }
{
    begins_with_letter(bytes) && has_word_bytes(bytes) && bytes.len() <= MOST_WORD
}

fn is_text(bytes: &[u8], text: &str) -> bool
    ensures { result ≡ same_name bytes.now text.now }
{
    bytes == text.as_bytes()
}

fn is_reserved(bytes: &[u8]) -> bool
    ensures { result ≡ is_reserved bytes.now }
{
    is_text(bytes, "sum")
        || is_text(bytes, "varnum")
        || is_text(bytes, "covnum")
        || is_text(bytes, "const")
        || is_text(bytes, "shift")
}

#[cfg(test)]
mod tests {
    use super::*;
    use std::test::Fail;

    #[test]
    fn letters_digits_and_underscores(rt: HostRuntime) -> Result<(), Fail> {
        assert!(rt; Name::of(b"abcdefghijklmnopqrstuvwxyz0123456").is_none());
        assert!(rt; Name::of(b"_x").is_none());
        assert!(rt; Name::of(b"covnum").is_none());
        let name = Name::of(b"temp_2").ok_or("a name")?;
        assert_eq!(rt; name.bytes(), b"temp_2".as_slice());
        assert!(rt; name == Name::of(name.bytes()).ok_or("the same name")?);
        Ok(())
    }
}
