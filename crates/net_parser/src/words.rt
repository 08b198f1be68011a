//! The words that tokens stand for.

ghost use Rattle.std.specs.Prelude.{◌≡◌};
ghost use Rattle.std.specs.Str.{bytes_eq};
ghost use Rattle.net_parser.specs.Words.{binary_of, form_of, item_of, sign_of, symbol_of, unary_of};

use lexing::Vocabulary;
use net_model::{ItemWord, Key, Operator, Symbol, Word};
use rec_bits::{Op1, Op2};

/// Whether a text is this word.
fn is_word(text: &[u8], word: &[u8]) -> bool
    ensures { result ≡ bytes_eq text.now word.now }
{
    text == word
}

/// The reserved words that begin an item.
fn item_of(text: &[u8]) -> Option<ItemWord>
    ensures { result ≡ item_of text.now }
{
    if is_word(text, b"code") {
        Some(ItemWord::Code)
    } else if is_word(text, b"register") {
        Some(ItemWord::Register)
    } else if is_word(text, b"memory") {
        Some(ItemWord::Memory)
    } else if is_word(text, b"net") {
        Some(ItemWord::Net)
    } else if is_word(text, b"bus") {
        Some(ItemWord::Bus)
    } else if is_word(text, b"module") {
        Some(ItemWord::Module)
    } else if is_word(text, b"part") {
        Some(ItemWord::Part)
    } else {
        None
    }
}

/// The operators of one operand.
fn unary_of(text: &[u8]) -> Option<Op1>
    ensures { result ≡ unary_of text.now }
{
    if is_word(text, b"not") {
        Some(Op1::Not)
    } else if is_word(text, b"neg") {
        Some(Op1::Neg)
    } else {
        None
    }
}

/// The operators of two operands.
fn binary_of(text: &[u8]) -> Option<Op2>
    ensures { result ≡ binary_of text.now }
{
    if is_word(text, b"add") {
        Some(Op2::Add)
    } else if is_word(text, b"sub") {
        Some(Op2::Sub)
    } else if is_word(text, b"mul") {
        Some(Op2::Mul)
    } else if is_word(text, b"and") {
        Some(Op2::And)
    } else if is_word(text, b"or") {
        Some(Op2::Or)
    } else if is_word(text, b"xor") {
        Some(Op2::Xor)
    } else if is_word(text, b"shl") {
        Some(Op2::Shl)
    } else if is_word(text, b"shr") {
        Some(Op2::Shr)
    } else if is_word(text, b"sar") {
        Some(Op2::Sar)
    } else if is_word(text, b"eq") {
        Some(Op2::Eq)
    } else if is_word(text, b"ltu") {
        Some(Op2::Ltu)
    } else if is_word(text, b"lts") {
        Some(Op2::Lts)
    } else {
        None
    }
}

/// The other reserved words that begin an expression.
fn form_of(text: &[u8]) -> Option<Operator>
    ensures { result ≡ form_of text.now }
{
    if is_word(text, b"cat") {
        Some(Operator::Cat)
    } else if is_word(text, b"slice") {
        Some(Operator::Slice)
    } else if is_word(text, b"zext") {
        Some(Operator::Zext)
    } else if is_word(text, b"sext") {
        Some(Operator::Sext)
    } else if is_word(text, b"read") {
        Some(Operator::Read)
    } else if is_word(text, b"case") {
        Some(Operator::Case)
    } else {
        None
    }
}

/// The other reserved words.
fn symbol_of(text: &[u8]) -> Option<Symbol>
    ensures { result ≡ symbol_of text.now }
{
    if is_word(text, b"size") {
        Some(Symbol::Size)
    } else if is_word(text, b"at") {
        Some(Symbol::At)
    } else if is_word(text, b"in") {
        Some(Symbol::In)
    } else if is_word(text, b"out") {
        Some(Symbol::Out)
    } else if is_word(text, b"when") {
        Some(Symbol::When)
    } else if is_word(text, b"addr") {
        Some(Symbol::Addr)
    } else if is_word(text, b"write") {
        Some(Symbol::Write)
    } else if is_word(text, b"else") {
        Some(Symbol::Else)
    } else {
        None
    }
}

/// The signs.
fn sign_of(text: &[u8]) -> Option<Symbol>
    ensures { result ≡ sign_of text.now }
{
    match text {
        b":" => Some(Symbol::Colon),
        b";" => Some(Symbol::Semicolon),
        b"," => Some(Symbol::Comma),
        b"=" => Some(Symbol::Equals),
        b"." => Some(Symbol::Dot),
        b"#" => Some(Symbol::Hash),
        b"(" => Some(Symbol::LeftParen),
        b")" => Some(Symbol::RightParen),
        b"{" => Some(Symbol::LeftBrace),
        b"}" => Some(Symbol::RightBrace),
        b"[" => Some(Symbol::LeftBracket),
        b"]" => Some(Symbol::RightBracket),
        _ => None,
    }
}

/// The words of netlists.
pub struct Words;

impl Vocabulary<Symbol, Key> for Words {
    ghost use Rattle.net_parser.specs.Words.{reserved_of, sign_word};

    ghost reserved = { reserved_of };

    ghost sign = { sign_word };

    fn reserved(text: &[u8]) -> Word {
        if let Some(item) = item_of(text) {
            return Word::Key(Key::Item(item));
        }
        if let Some(op) = unary_of(text) {
            return Word::Key(Key::Operator(Operator::Unary(op)));
        }
        if let Some(op) = binary_of(text) {
            return Word::Key(Key::Operator(Operator::Binary(op)));
        }
        if let Some(form) = form_of(text) {
            return Word::Key(Key::Operator(form));
        }
        match symbol_of(text) {
            Some(symbol) => Word::Symbol(symbol),
            None => Word::Other,
        }
    }

    fn sign(text: &[u8]) -> Word {
        match sign_of(text) {
            Some(sign) => Word::Symbol(sign),
            None => Word::Other,
        }
    }
}
