ghost use Rattle.std.specs.Prelude.{◌≡◌};
ghost use Rattle.js_syntax.specs.Parts.{parts_of, texts_of};
ghost use Rattle.js_syntax.specs.Sorts.{Place as PlaceRound, suits, stands, takes_node, takes_list, takes_absent, item_place, sort_of, expression};
ghost use Rattle.js_syntax.specs.Printable.{place_inside, places_of, fits};
ghost use Rattle.js_rules.specs.SortsSeen.{sort_seen, place_seen, places_seen};

use crate::lexicon::Lexicon;
use crate::places::{PlaceList, place_at, place_count, places_at};
use crate::sentences::is_sound;
use crate::sort::{Place, Sort, takes};
use crate::view::View;
use crate::walk::Rule;
use js_term::Kind;
use std::marker::PhantomData;

/// Each node stands at a place that takes it, has the texts and as many parts as its kind asks for, and the sentences on
/// its kind hold.
pub struct ShapeRule<L>(PhantomData<L>);

/// What the texts of a node have to be at a sort, beyond what its kind asks for.
fn suits<L: Lexicon, V: View>(sort: Sort, kind: Kind, view: &V) -> bool
    ensures { result ≡ suits (sort_seen sort) kind (texts_of (V.term view.now)) }
{
    match sort {
        Sort::Body => match kind {
            Kind::VariableDeclaration => view.text_is("var"),
            _ => true,
        },
        Sort::PlainMethod => match kind {
            Kind::FunctionExpression => !view.is_set(0) && !view.is_set(1),
            _ => true,
        },
        Sort::TemplateText => match kind {
            Kind::TemplateElement => L::has_sound_escapes(view.text()),
            _ => true,
        },
        _ => true,
    }
}

fn stands<L: Lexicon, V: View>(sort: Sort, kind: Kind, view: &V) -> bool
    ensures { result ≡ stands (sort_seen sort) kind (texts_of (V.term view.now)) }
{
    takes(sort, kind) && suits::<L, V>(sort, kind, view)
}

fn takes_node<L: Lexicon, V: View>(place: Place, kind: Kind, view: &V) -> bool
    ensures { result ≡ takes_node (place_seen place) kind (texts_of (V.term view.now)) }
{
    match place {
        Place::One(sort) | Place::Optional(sort) => stands::<L, V>(sort, kind, view),
        _ => false,
    }
}

/// The sort that a place asks for, or that of expressions.
fn sort_of(place: Place) -> Sort
    ensures { sort_seen result ≡ sort_of (place_seen place) expression }
{
    match place {
        Place::One(sort) | Place::Optional(sort) => sort,
        _ => Sort::Expression,
    }
}

fn places_of<V: View>(place: Place, kind: Kind, view: &V) -> PlaceList
    ensures { places_seen result ≡ places_of (place_seen place) kind (texts_of (V.term view.now)) }
{
    places_at(sort_of(place), kind, view)
}

impl<L: Lexicon> Rule for ShapeRule<L> {
    type Context = Place;

    ghost Round = { PlaceRound };

    ghost round = { place_seen };

    ghost inside = { place_inside };

    ghost item = { item_place };

    ghost allows = { fits };

    ghost allows_list = { takes_list };

    ghost allows_absent = { takes_absent };

    fn inside<V: View>(context: &Place, kind: Kind, view: &V, n: usize) -> Place {
        place_at(places_of(*context, kind, view), n)
    }

    fn item(context: &Place) -> Place {
        match *context {
            Place::Many(sort)
            | Place::Some(sort)
            | Place::Single(sort)
            | Place::Several(sort)
            | Place::OptionalList(sort) => Place::One(sort),
            Place::Spaced(sort) => Place::Optional(sort),
            _ => Place::Nowhere,
        }
    }

    fn allows<V: View>(context: &Place, kind: Kind, view: &V) -> bool {
        takes_node::<L, V>(*context, kind, view)
            && view.has_texts::<L>(kind)
            && view.count() == place_count(places_of(*context, kind, view))
            && is_sound(kind, view)
    }

    fn allows_list<V: View>(context: &Place, view: &V) -> bool {
        let count = view.count();
        match *context {
            Place::Many(_) | Place::Spaced(_) | Place::OptionalList(_) => true,
            Place::Some(_) => count >= 1,
            Place::Single(_) => count == 1,
            Place::Several(_) => count >= 2,
            _ => false,
        }
    }

    fn allows_absent(context: &Place) -> bool {
        matches!(
            *context,
            Place::Optional(_) | Place::Nothing | Place::OptionalList(_)
        )
    }
}
