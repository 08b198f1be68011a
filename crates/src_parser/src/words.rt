//! The words that tokens stand for.

ghost use Rattle.std.specs.Prelude.{◌≡◌};
ghost use Rattle.std.specs.Str.{bytes_eq};
ghost use Rattle.src_parser.specs.Words.{call_of, compare_of, operator_of, sign_of, signed_of, symbol_of};

use lexing::Vocabulary;
use rec_bits::Op2;
use src_model::{Call, Cmp, Key, Symbol, Word};

/// Whether a text is this word.
fn is_word(text: &[u8], word: &[u8]) -> bool
    ensures { result ≡ bytes_eq text.now word.now }
{
    text == word
}

/// The signs that compare.
fn compare_of(text: &[u8]) -> Option<Cmp>
    ensures { result ≡ compare_of text.now }
{
    match text {
        b"==" => Some(Cmp::Eq),
        b"!=" => Some(Cmp::Ne),
        b"<" => Some(Cmp::Lt),
        b"<=" => Some(Cmp::Le),
        b">" => Some(Cmp::Gt),
        b">=" => Some(Cmp::Ge),
        _ => None,
    }
}

/// The reserved words that compare.
fn signed_of(text: &[u8]) -> Option<Cmp>
    ensures { result ≡ signed_of text.now }
{
    if is_word(text, b"slt") {
        Some(Cmp::Slt)
    } else if is_word(text, b"sle") {
        Some(Cmp::Sle)
    } else if is_word(text, b"sgt") {
        Some(Cmp::Sgt)
    } else if is_word(text, b"sge") {
        Some(Cmp::Sge)
    } else {
        None
    }
}

/// The operators.
fn operator_of(text: &[u8]) -> Option<Op2>
    ensures { result ≡ operator_of text.now }
{
    match text {
        b"|" => Some(Op2::Or),
        b"^" => Some(Op2::Xor),
        b"&" => Some(Op2::And),
        b"<<" => Some(Op2::Shl),
        b">>" => Some(Op2::Shr),
        b">>>" => Some(Op2::Sar),
        b"+" => Some(Op2::Add),
        b"-" => Some(Op2::Sub),
        b"*" => Some(Op2::Mul),
        _ => None,
    }
}

/// The reserved words that call.
fn call_of(text: &[u8]) -> Option<Call>
    ensures { result ≡ call_of text.now }
{
    if is_word(text, b"zext") {
        Some(Call::Zext)
    } else if is_word(text, b"sext") {
        Some(Call::Sext)
    } else if is_word(text, b"low") {
        Some(Call::Low)
    } else {
        None
    }
}

/// The other reserved words.
fn symbol_of(text: &[u8]) -> Option<Symbol>
    ensures { result ≡ symbol_of text.now }
{
    if is_word(text, b"var") {
        Some(Symbol::Var)
    } else if is_word(text, b"if") {
        Some(Symbol::If)
    } else if is_word(text, b"else") {
        Some(Symbol::Else)
    } else if is_word(text, b"while") {
        Some(Symbol::While)
    } else if is_word(text, b"for") {
        Some(Symbol::For)
    } else if is_word(text, b"to") {
        Some(Symbol::To)
    } else {
        None
    }
}

/// The other signs.
fn sign_of(text: &[u8]) -> Option<Symbol>
    ensures { result ≡ sign_of text.now }
{
    match text {
        b"=" => Some(Symbol::Equals),
        b";" => Some(Symbol::Semicolon),
        b"," => Some(Symbol::Comma),
        b"~" => Some(Symbol::Tilde),
        b"(" => Some(Symbol::LeftParen),
        b")" => Some(Symbol::RightParen),
        b"{" => Some(Symbol::LeftBrace),
        b"}" => Some(Symbol::RightBrace),
        b"[" => Some(Symbol::LeftBracket),
        b"]" => Some(Symbol::RightBracket),
        _ => None,
    }
}

/// The words of programs.
pub struct Words;

impl Vocabulary<Symbol, Key> for Words {
    ghost use Rattle.src_parser.specs.Words.{reserved_of, sign_word};

    ghost reserved = { reserved_of };

    ghost sign = { sign_word };

    fn reserved(text: &[u8]) -> Word {
        if let Some(cmp) = signed_of(text) {
            return Word::Key(Key::Compare(cmp));
        }
        if let Some(call) = call_of(text) {
            return Word::Key(Key::Call(call));
        }
        match symbol_of(text) {
            Some(symbol) => Word::Symbol(symbol),
            None => Word::Other,
        }
    }

    fn sign(text: &[u8]) -> Word {
        if let Some(cmp) = compare_of(text) {
            return Word::Key(Key::Compare(cmp));
        }
        if let Some(op) = operator_of(text) {
            return Word::Key(Key::Operator(op));
        }
        match sign_of(text) {
            Some(sign) => Word::Symbol(sign),
            None => Word::Other,
        }
    }
}
