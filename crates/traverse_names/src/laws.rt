//! Laws over the definitions; the functions do nothing.

ghost use Rattle.std.specs.Prelude.{◌≡◌, ◌≤◌, ◌↔◌, ℕ, List, ◌∷◌, Some, true, false};
ghost use Rattle.std.specs.FinMap as map;
ghost use Rattle.std.specs.List.{Contains};
ghost use Rattle.js_chars.specs.Names.{is_identifier_name};
ghost use Rattle.traverse_names.specs.Identifier.{identifier_of, name_of_parts, size};
ghost use Rattle.traverse_names.specs.Uid.{Text, Pair, Names, IsBase, Counts, Seen, IsCatalogued, base_of, counted, catalogue, keep, is_news, next_pair, name_of};

/// A name counts for one base with one pair at most, and `counted` finds them.
pub fn names_count_once()
    ensures { (name base : Text) (pair : Pair) → (counted name ≡ Some (base, pair)) ↔ Counts name base pair }
{}

/// A name is drawn for a base.
pub fn drawn_for_a_base()
    ensures { (name : Text) → IsBase (base_of name) }
{}

/// A drawn name is none of the names that were catalogued or drawn before.
#[tactic(auto, using(crate::proofs::Fresh::drawn_name_is_new))]
pub fn drawn_name_is_new()
    ensures { (kept : Names) (names : List Text) (base : Text) (pair : Pair) → Seen kept names → IsBase base → next_pair (map.get kept base) ≡ Some pair → Contains names (name_of base pair) → ⊥ }
{}

/// For one base the pairs of drawn names strictly grow: the next pair is above the kept one, and is then kept; what is
/// taken into account makes no kept pair smaller.
pub fn pairs_grow()
    ensures drawn { (kept : Names) (base : Text) (pair : Pair) → next_pair (map.get kept base) ≡ Some pair → (is_news (map.get kept base) pair ≡ true) × (map.get (map.insert kept base pair) base ≡ Some pair) }
    ensures kept { (kept : Names) (base : Text) (pair : Pair) (other : Text) (q : Pair) → is_news (map.get kept other) q ≡ false → is_news (map.get (keep kept base pair) other) q ≡ false }
{}

/// A catalogue keeps for each base the greatest pair of the names that count for it.
#[tactic(auto, using(crate::proofs::Catalogue::catalogue_keeps_last))]
pub fn catalogue_keeps_last()
    ensures { (names : List Text) (base : Text) → IsCatalogued names base (map.get (catalogue names) base) }
{}

/// An identifier name stays as it is, and of any text `_` and what is made of it are an identifier name.
pub fn identifiers_are_names()
    ensures stays { (cs : List ℕ) → is_identifier_name cs ≡ true → identifier_of cs ≡ cs }
    ensures named { (cs : List ℕ) → is_identifier_name (95 ∷ identifier_of cs) ≡ true }
{}

/// The name of a node's parts has 1 to 20 bytes, whatever the parts are, and `_` before it is an identifier name.
pub fn node_names_are_short()
    ensures { (parts : List (List ℕ)) → (1 ≤ size (name_of_parts parts)) × (size (name_of_parts parts) ≤ 20) × (is_identifier_name (95 ∷ name_of_parts parts) ≡ true) }
{}
