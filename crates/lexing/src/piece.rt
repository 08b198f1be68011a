//! What stands at a place of a text.

ghost use Rattle.std.specs.Prelude.{◌≡◌, take_while};
ghost use Rattle.lexing.specs.Bytes.{is_name_byte};
ghost use Rattle.lexing.specs.Tokens.{name_piece, number_piece, sign_piece, piece};

use crate::bytes::{begins_with_letter, blank, comment_bytes, digit, letter, name_bytes};
use crate::number::{number_bytes, number_value_of};
use crate::{Kind, Language};

/// The greatest number of bytes of a name.
const MAX_NAME: usize = 32;

/// What stands at a place of a text.
#[derive(Clone, Copy)]
pub enum Piece {
    /// So many bytes of blanks or comment.
    Blank(usize),
    /// A token of so many bytes.
    Whole(Kind, usize),
    /// No token begins here.
    Wrong,
}

fn name_run(bytes: &[u8]) -> &[u8]
    ensures { result.now ≡ take_while is_name_byte bytes.now }
{
    &bytes[..name_bytes(bytes)]
}

fn name_at(language: &Language, name: &[u8]) -> Piece
    ensures { result ≡ name_piece language.now name.now }
{
    if name.len() > MAX_NAME {
        Piece::Wrong
    } else if language.is_reserved(name) {
        Piece::Whole(Kind::Reserved, name.len())
    } else {
        Piece::Whole(Kind::Name, name.len())
    }
}

fn number_at(bytes: &[u8]) -> Piece
    ensures { result ≡ number_piece bytes.now }
{
    let length = number_bytes(bytes);
    if begins_with_letter(&bytes[length..]) {
        return Piece::Wrong;
    }
    match number_value_of(&bytes[..length]) {
        None => Piece::Wrong,
        Some(_) => Piece::Whole(Kind::Number, length),
    }
}

fn sign_at(language: &Language, bytes: &[u8]) -> Piece
    ensures { result ≡ sign_piece language.now bytes.now }
{
    match language.sign_length(bytes) {
        0 => Piece::Wrong,
        length => Piece::Whole(Kind::Sign, length),
    }
}

/// What stands at the front of `bytes`.
#[tactic(auto, unfolding(crate::specs::Tokens::piece))]
pub fn piece_at(language: &Language, bytes: &[u8]) -> Piece
    ensures { result ≡ piece language.now bytes.now }
{
    let [first, ..] = bytes else {
        return Piece::Wrong;
    };
    if blank(*first) {
        Piece::Blank(1)
    } else if bytes.starts_with(b"//") {
        Piece::Blank(comment_bytes(bytes))
    } else if letter(*first) {
        name_at(language, name_run(bytes))
    } else if digit(*first) {
        number_at(bytes)
    } else {
        sign_at(language, bytes)
    }
}
