//! Names for new bindings: unique identifiers, and texts turned into identifier names.
#![tactic(auto)]

mod gather;
mod identifier;
mod joined;
mod laws;
mod node_name;
#[cfg(test)]
mod tests;
mod uid;
mod uid_text;

pub use gather::GatherNodeParts;
pub use identifier::to_identifier;
pub use joined::JoinedParts;
pub use laws::{
    catalogue_keeps_last, drawn_for_a_base, drawn_name_is_new, identifiers_are_names,
    names_count_once, node_names_are_short, pairs_grow,
};
pub use node_name::get_var_name_from_node;
pub use uid::{UidFault, UidGenerator};
