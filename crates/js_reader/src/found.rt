//! What is found.

ghost use Rattle.std.specs.Prelude.{◌≡◌, OnOk};
ghost use Rattle.js_reading.specs.Reading as spec;
ghost use Rattle.js_reader.specs.Reads.{found_of};
ghost use Rattle.js_reader.specs.Summed.{added, listing_of, nothing_yet};
ghost use Rattle.js_tree.specs.TermOf.{term};

use crate::nodes::is_node;
use js_items::Items;
use js_term::Kind;
use js_tree::Node;
use std::alloc::{AllocError, Global};

/// A tree, and the level of an expression (ECMAScript 13.2 to 13.15).
#[derive(Drop)]
pub struct Found {
    pub node: Node,
    pub level: u8,
    /// Whether it is no expression but may become a pattern: a shorthand in it has an initializer (13.2.5.1).
    pub cover: bool,
    /// Whether it may become no pattern: a comma stands behind a spread in it.
    pub barred: bool,
}

impl Found {
    /// An expression that is neither.
    pub fn closed(node: Node, level: u8) -> Found
        ensures { found_of result ≡ spec.closed (term node) level }
    {
        Found {
            node,
            level,
            cover: false,
            barred: false,
        }
    }
}

/// What a list is of, with commas between.
#[derive(Clone, Copy)]
pub enum Listed {
    /// What stands in parentheses: expressions, or what may become parameters.
    Parenthesized,
    /// Elements of an array, and elisions (13.2.4).
    Element,
    /// Arguments of a call (13.3).
    Argument,
    /// Properties of an object (13.2.5).
    Property,
}

/// The items of a list, and what holds of any of them or of the last.
#[derive(Drop)]
pub struct Listing {
    pub items: Items<Node>,
    pub cover: bool,
    pub barred: bool,
    /// Whether one of them is a spread.
    pub spread: bool,
    /// Whether the last one is.
    pub last: bool,
    /// Whether a comma stands behind.
    pub comma: bool,
}

impl Listing {
    /// A list of nothing.
    pub fn new(alloc: Global) -> Listing
        ensures { listing_of result ≡ nothing_yet }
    {
        Listing {
            items: Items::new(alloc),
            cover: false,
            barred: false,
            spread: false,
            last: false,
            comma: false,
        }
    }

    /// Adds what was found.
    pub fn add(&mut self, found: Found) -> Result<(), AllocError>
        ensures { OnOk result (listing_of self.new ≡ added (listing_of self.old) (found_of found)) }
    {
        let Found {
            node,
            cover,
            barred,
            ..
        } = found;
        self.cover = self.cover || cover;
        self.barred = self.barred || barred;
        self.last = is_node(&node, Kind::SpreadElement);
        self.spread = self.spread || self.last;
        self.comma = false;
        self.items.push(node)
    }
}
