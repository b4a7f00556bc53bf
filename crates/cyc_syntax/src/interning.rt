//! Interns names: it represents each distinct name by a number.
ghost use Rattle.std.specs.Prelude.{◌≡◌, ◌<◌, List, [], ◌∷◌, ◌++◌, false, length, slice_get, Some, is_some, IfSome, IfNone, IsTrue, IsOk, IfOk, OnOk, OnErr};
ghost use Rattle.cyc_syntax.specs.Names.{is_among, with_text, number_of};
ghost use Rattle.cyc_syntax.specs.inside.NameIndex as index;

use std::alloc::{AllocError, Global};
use std::collections::BTreeMap;
use std::marker::Model;

/// A name, represented by the number of its text in the `Names` that interned it.
#[derive(Clone, Copy, Debug, PartialEq, Eq)]
pub struct Name {
    pub number: usize,
}

/// The interned texts, each once, in the order of their first occurrence. The number of a text is its index, from 0.
// A text is looked up by its key, a number. The author of a program may choose many names with equal keys. Both lookups, by key and by
// text, use ordered maps, so each takes logarithmic time, whatever names the author chooses.
#[derive(Drop)]
pub struct Names {
    texts: Vec<Vec<u8>>,
    /// Maps a key to the number of the first text with this key.
    firsts: BTreeMap<u64, usize>,
    /// Maps each text whose key an earlier text has to its number.
    others: BTreeMap<Vec<u8>, usize>,
}

impl Model for Names {
    ghost use Rattle.std.specs.Prelude.{List, ℕ, map};
    ghost use Rattle.cyc_syntax.specs.inside.NameIndex.{first_in, other_in, IsIndexOf};

    ghost Value = { List (List ℕ) };

    ghost view = { λ n. map (λ v. v.items) n.texts.items };

    ghost invariant = { λ n. IsIndexOf (map (λ v. v.items) n.texts.items) (first_in n.firsts) (other_in n.others) };
}

/// Returns the key of a text: its bytes as the digits of a number, modulo 2^64. Texts of at most seven bytes have distinct keys.
fn key_of(text: &[u8]) -> u64
    ensures { result ≡ index.key_of text.now }
{
    let mut key: u64 = 0;
    for byte in text {
        key = key.wrapping_mul(257).wrapping_add(u64::from(*byte));
    }
    key
}

impl Names {
    /// Returns an empty set of names. The empty set allocates no memory before the first name is interned.
    pub fn new(alloc: Global) -> Result<Names, AllocError>
        ensures empty { IfOk result (λ names. names ≡ []) }
        ensures succeeds { IsOk result }
    {
        let texts = Vec::new(alloc);
        let firsts = BTreeMap::new(alloc);
        let others = BTreeMap::new(alloc);
        Ok(Names {
            texts,
            firsts,
            others,
        })
    }

    /// Returns the name of a text, and interns the text if it is new. Equal texts have equal names.
    pub fn intern(&mut self, text: &[u8]) -> Result<Name, AllocError>
        ensures texts { OnOk result (self.new ≡ with_text self.old text.now) }
        ensures number { IfOk result (λ name. name.number ≡ number_of self.new text.now) }
        ensures given { IfOk result (λ name. slice_get self.new name.number ≡ Some text.now) }
        ensures unchanged { OnErr result (self.new ≡ self.old) }
        // Interning fails only if the text is new, since only a new text needs an allocation.
        ensures known { IsTrue (is_among text.now self.old) → IsOk result }
    {
        if let Some(number) = self.number(text) {
            return Ok(Name { number });
        }
        let number = self.add(text)?;
        Ok(Name { number })
    }

    /// Appends a text that has no number yet, and returns its number.
    fn add(&mut self, text: &[u8]) -> Result<usize, AllocError>
        requires { is_among text.now self.old ≡ false }
        ensures texts { OnOk result (self.new ≡ self.old ++ text.now ∷ []) }
        ensures number { IfOk result (λ number. number ≡ length self.old) }
        ensures unchanged { OnErr result (self.new ≡ self.old) }
    {
        let number = self.texts.len();
        let owned = Vec::from_slice(*self.texts.allocator(), text)?;
        self.texts.reserve(1)?;
        let key = key_of(text);
        if self.firsts.contains_key(&key) {
            let other = Vec::from_slice(*self.texts.allocator(), text)?;
            self.others.insert(other, number)?;
        } else {
            self.firsts.insert(key, number)?;
        }
        self.texts.push_reserved(owned);
        Ok(number)
    }

    /// Returns the number of a text, or `None` if it was not interned.
    fn number(&self, text: &[u8]) -> Option<usize>
        ensures { result ≡ index.number_if self.now text.now }
    {
        let key = key_of(text);
        let Some(first) = self.firsts.get(&key) else {
            return None;
        };
        let number = *first;
        let known = self.texts[number].as_slice();
        if known == text {
            return Some(number);
        }
        self.others.get(text).copied()
    }

    /// Returns the number of interned names. The next new text gets as its number the number of names interned so far.
    pub fn len(&self) -> usize
        ensures { result ≡ length self.now }
    {
        self.texts.len()
    }

    /// Returns the name of a text, or `None` if it was not interned. The lookup interns nothing.
    pub fn find(&self, text: &[u8]) -> Option<Name>
        ensures found { is_some result ≡ is_among text.now self.now }
        ensures number { IfSome result (λ name. name.number ≡ number_of self.now text.now) }
        ensures missing { IfNone result (number_of self.now text.now ≡ length self.now) }
    {
        match self.number(text) {
            Some(number) => Some(Name { number }),
            None => None,
        }
    }

    /// Returns the text of a name that was interned in this `Names`.
    pub fn text(&self, name: Name) -> &[u8]
        requires { name.number < length self.now }
        ensures { slice_get self.now name.number ≡ Some result.now }
    {
        &self.texts[name.number]
    }
}
