//! What languages differ in.

ghost use Rattle.std.specs.Prelude.{◌≡◌, map};
ghost use Rattle.std.specs.List.{list_any};
ghost use Rattle.std.specs.Str.{bytes_eq};
ghost use Rattle.lexing.specs.Table.{Lexicon, is_reserved, sign_length};

use std::marker::Model;

/// The reserved words and the signs of a language.
#[derive(Drop)]
pub struct Language<'a> {
    reserved: &'a [&'a str],
    signs: &'a [&'a str],
}

impl<'a> Model for Language<'a> {
    ghost use Rattle.std.specs.Prelude.{map};
    ghost use Rattle.lexing.specs.Table.{Lexicon};

    ghost Value = { Lexicon };

    ghost view = { λ language. record {
      reserved = map (λ word. word.now) language.reserved.now;
      signs = map (λ sign. sign.now) language.signs.now;
    } };
}

fn is_one_of(words: &[&str], name: &[u8]) -> bool
    ensures { result ≡ list_any (λ word. bytes_eq word.now name.now) words.now }
{
    words.iter().any(|word| word.as_bytes() == name)
}

impl<'a> Language<'a> {
    /// The language with these reserved words and signs.
    pub fn new(reserved: &'a [&'a str], signs: &'a [&'a str]) -> Language<'a>
        ensures { result ≡ record {
          reserved = map (λ word. word.now) reserved.now;
          signs = map (λ sign. sign.now) signs.now;
        } }
    {
        Language { reserved, signs }
    }

    /// Whether `name` is a reserved word.
    pub fn is_reserved(&self, name: &[u8]) -> bool
        ensures { result ≡ is_reserved self.now name.now }
    {
        is_one_of(self.reserved, name)
    }

    /// How many bytes the longest sign has with which `bytes` begins, or 0 if it begins with none.
    pub fn sign_length(&self, bytes: &[u8]) -> usize
        ensures { result ≡ sign_length self.now bytes.now }
    {
        self.signs.iter().fold(0, |longest: usize, sign| {
            if bytes.starts_with(sign.as_bytes()) {
                longest.max(sign.len())
            } else {
                longest
            }
        })
    }
}
