//! A notation for trees: `(Kind 'text' .. part ..)` is a node, `[part ..]` a list and `_` an absent part.

use crate::kinds::kind_named;
use crate::words::{flags_of, word_of};
use js_tree::{Ident, Items, Kind, Node, Texts};
use std::alloc::{AllocError, Global};
use std::mem;
use thiserror::Error;

/// Why a text is no tree in the notation.
#[derive(Debug, Drop, Error)]
pub enum NotationError {
    #[error("no kind of node has the name at {0}")]
    UnknownKind(usize),
    #[error("no node has such texts")]
    UnknownTexts,
    #[error("`{0}` stands at no place of the notation")]
    Unexpected(char),
    #[error("the text is not one tree")]
    NotOneTree,
    #[error("out of memory")]
    NoMemory,
}

impl From<AllocError> for NotationError {
    fn from(_: AllocError) -> NotationError {
        NotationError::NoMemory
    }
}

/// A node or a list whose parts are being read.
#[derive(Drop)]
struct Open<'t> {
    /// None for a list.
    kind: Option<Kind>,
    texts: Vec<&'t str>,
    parts: Items<Node>,
}

/// What stands before the next character: a sign, or the beginning of a name or a text, by the sign before it.
#[derive(Clone, Copy)]
enum Mode {
    Between,
    Name { from: usize },
    Text { from: usize },
}

#[derive(Drop)]
struct Reader<'t> {
    alloc: Global,
    text: &'t str,
    mode: Mode,
    here: Open<'t>,
    around: Vec<Open<'t>>,
}

/// The tree that the text notes.
pub fn read(alloc: Global, text: &str) -> Result<Node, NotationError> {
    let mut reader = Reader::new(alloc, text);
    for (at, c) in text.char_indices() {
        reader.step(at, c)?;
    }
    reader.finish()
}

impl<'t> Open<'t> {
    fn new(alloc: Global, kind: Option<Kind>) -> Self {
        Open {
            kind,
            texts: Vec::new(alloc),
            parts: Items::new(alloc),
        }
    }

    /// The part that ends with this bracket.
    fn ended_by(self, alloc: Global, bracket: char) -> Result<Node, NotationError> {
        match (self.kind, bracket) {
            (Some(kind), ')') => {
                let texts = texts_of(alloc, kind, self.texts.as_slice())?;
                Ok(Node::new(kind, texts, self.parts))
            }
            (None, ']') => Ok(Node::list(self.parts)),
            _ => Err(NotationError::Unexpected(bracket)),
        }
    }
}

/// The texts of a node: one text as it stands, several as words.
fn texts_of(alloc: Global, kind: Kind, texts: &[&str]) -> Result<Texts, NotationError> {
    match texts {
        [] => Ok(Texts::None),
        [text] => Ok(Texts::Text(Ident::new(alloc, text)?)),
        [pattern, flags] if kind == Kind::RegExpLiteral => {
            Ok(Texts::RegExp(flags_of(flags), Ident::new(alloc, pattern)?))
        }
        [a, b] => Ok(Texts::Two(word_of(a)?, word_of(b)?)),
        [a, b, c] => Ok(Texts::Three(word_of(a)?, word_of(b)?, word_of(c)?)),
        [a, b, c, d] => Ok(Texts::Four(word_of(a)?, word_of(b)?, word_of(c)?, word_of(d)?)),
        _ => Err(NotationError::UnknownTexts),
    }
}

impl<'t> Reader<'t> {
    fn new(alloc: Global, text: &'t str) -> Self {
        Reader {
            alloc,
            text,
            mode: Mode::Between,
            here: Open::new(alloc, None),
            around: Vec::new(alloc),
        }
    }

    fn step(&mut self, at: usize, c: char) -> Result<(), NotationError> {
        match self.mode {
            Mode::Name { .. } if c.is_ascii_alphabetic() => Ok(()),
            Mode::Name { from } => {
                let name = self.behind(from, at)?;
                let kind = kind_named(name).ok_or(NotationError::UnknownKind(from))?;
                self.open(Some(kind))?;
                self.sign(at, c)
            }
            Mode::Text { from } if c == '\'' => {
                let text = self.behind(from, at)?;
                self.here.texts.push(text).map_err(AllocError::from)?;
                self.mode = Mode::Between;
                Ok(())
            }
            Mode::Text { .. } => Ok(()),
            Mode::Between => self.sign(at, c),
        }
    }

    /// What stands behind the sign at `from`, up to `end`.
    fn behind(&self, from: usize, end: usize) -> Result<&'t str, NotationError> {
        self.text
            .get(from..end)
            .and_then(|text| text.get(1..))
            .ok_or(NotationError::NotOneTree)
    }

    fn sign(&mut self, at: usize, c: char) -> Result<(), NotationError> {
        self.mode = Mode::Between;
        match c {
            ' ' => {}
            '(' => self.mode = Mode::Name { from: at },
            '\'' if self.takes_text() => self.mode = Mode::Text { from: at },
            '_' => self.here.parts.push(Node::absent(self.alloc))?,
            '[' => self.open(None)?,
            ')' | ']' => self.close(c)?,
            _ => return Err(NotationError::Unexpected(c)),
        }
        Ok(())
    }

    /// Whether a text may follow: texts stand before the parts of a node.
    fn takes_text(&self) -> bool {
        self.here.kind.is_some() && self.here.parts.is_empty()
    }

    fn open(&mut self, kind: Option<Kind>) -> Result<(), AllocError> {
        let outer = mem::replace(&mut self.here, Open::new(self.alloc, kind));
        self.around.push(outer)?;
        Ok(())
    }

    fn close(&mut self, bracket: char) -> Result<(), NotationError> {
        let outer = self.around.pop().ok_or(NotationError::Unexpected(bracket))?;
        let inner = mem::replace(&mut self.here, outer);
        self.here.parts.push(inner.ended_by(self.alloc, bracket)?)?;
        Ok(())
    }

    fn finish(self) -> Result<Node, NotationError> {
        let Reader {
            mode,
            here,
            around,
            ..
        } = self;
        let mut parts = here.parts;
        match (mode, parts.pop()) {
            (Mode::Between, Some(root)) if around.is_empty() && parts.is_empty() => Ok(root),
            _ => Err(NotationError::NotOneTree),
        }
    }
}
