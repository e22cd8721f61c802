//! A cursor over the tokens of a text.

ghost use Rattle.std.specs.Prelude.{◌≡◌, ◌≤◌, length};
ghost use Rattle.std.specs.List.{list_all};
ghost use Rattle.js_term.specs.Lexeme as spec;
ghost use Rattle.js_lex.specs.Next as next;
ghost use Rattle.js_lex.specs.Classes.{peeked_of};

use crate::bytes::{Class, is_blank, is_line_end, split_run};
use crate::lexeme::{Lexeme, Token, next_token};
use std::marker::Model;

/// What is left of a text of at most 4294967295 bytes, token by token.
#[derive(Drop)]
pub struct Tokens<'a> {
    rest: &'a str,
    /// What is left from the next token on, without the gap in front of it.
    ahead: &'a str,
    /// The next token, if one is there: it is looked for once, however often it is asked for.
    token: Option<Token<'a>>,
    /// How long the whole text is.
    whole: u32,
}

impl<'a> Model for Tokens<'a> {
    ghost use Rattle.std.specs.Prelude.{ℕ, List, ◌≤◌, length};
    ghost use Rattle.std.specs.Coded.{coded_list, coded_ℕ};
    ghost use Rattle.js_lex.specs.Classes.{IsAhead};

    ghost Value = { List ℕ };

    ghost coded = { coded_list coded_ℕ };

    ghost view = { λ t. t.rest.now };

    ghost invariant = { λ t. (length t.rest.now ≤ t.whole) × IsAhead t.rest.now t.ahead.now t.token };
}

/// The text behind the gap at its front.
#[tactic(auto, using(crate::proofs::Runs::front_behind))]
fn front(text: &str) -> &str
    ensures front { result.now ≡ spec.front text.now }
    ensures within { length result.now ≤ length text.now }
{
    split_run(text, Class::Blank).1
}

fn same_line(mut bytes: &[u8]) -> bool
    ensures { result ≡ spec.same_line bytes.entry.now }
{
    while let [byte, rest @ ..] = bytes {
        if is_line_end(*byte) {
            return false;
        }
        if !is_blank(*byte) {
            return true;
        }
        bytes = rest;
    }
    true
}

/// The cursor over a text of which this is left.
#[tactic(auto, unfolding(crate::specs::Next::next))]
fn cursor<'a>(rest: &'a str, whole: u32) -> Tokens<'a>
    requires { length rest.now ≤ whole }
    ensures { result ≡ rest.now }
{
    let ahead = front(rest);
    Tokens {
        rest,
        ahead,
        token: next_token(ahead),
        whole,
    }
}

impl<'a> Tokens<'a> {
    pub fn new(text: &'a str) -> Tokens<'a>
        requires { length text.now ≤ 4294967295 }
        ensures { result ≡ text.now }
    {
        cursor(text, text.len() as u32)
    }

    /// How much is left, with the gap at its front.
    pub fn left(&self) -> usize
        ensures { result ≡ length self.now }
    {
        self.rest.len()
    }

    /// How much is left from the next token on.
    pub fn ahead(&self) -> usize
        ensures { result ≤ length self.now }
    {
        self.ahead.len()
    }

    /// Where the next token begins, in bytes.
    pub fn start(&self) -> u32 {
        self.whole - self.ahead() as u32
    }

    /// Where the last token that was passed ends.
    pub fn end(&self) -> u32 {
        self.whole - self.rest.len() as u32
    }

    #[tactic(auto, unfolding(crate::specs::Next::lexeme))]
    pub fn peek(&self) -> Option<Lexeme<'a>>
        ensures { peeked_of result ≡ next.lexeme self.now }
    {
        match self.token {
            None => None,
            Some(token) => Some(token.lexeme),
        }
    }

    /// Passes the token at the front, if one is there.
    #[tactic(auto, unfolding(crate::specs::Next::after))]
    pub fn advance(&mut self)
        ensures { self.new ≡ next.after self.old }
    {
        if let Some(token) = self.token {
            *self = cursor(token.rest, self.whole);
        }
    }

    /// Whether the next token is this sign.
    #[tactic(auto, unfolding(crate::specs::Next::sees))]
    pub fn sees(&self, sign: u8) -> bool
        ensures { result ≡ next.sees (spec.sign sign) self.now }
    {
        match self.peek() {
            Some(Lexeme::Sign(byte)) => byte == sign,
            _ => false,
        }
    }

    /// Whether the next token is this word.
    #[tactic(auto, unfolding(crate::specs::Next::sees))]
    pub fn sees_word(&self, word: &str) -> bool
        ensures { result ≡ next.sees (spec.word word.now) self.now }
    {
        match self.peek() {
            Some(Lexeme::Word(name)) => name == word,
            _ => false,
        }
    }

    /// Whether nothing but a gap is left.
    pub fn at_end(&self) -> bool
        ensures { result ≡ list_all spec.is_blank self.now }
    {
        self.ahead.is_empty()
    }

    /// Whether the next token stands on the same line.
    pub fn same_line(&self) -> bool
        ensures { result ≡ spec.same_line self.now }
    {
        same_line(self.rest.as_bytes())
    }
}
