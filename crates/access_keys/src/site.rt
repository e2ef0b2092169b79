use nf_base::decl::ObjectId;
use nf_base::hash_fields::Hashable;
use nf_base::limited::Limited;
use nf_base::packet::Door;
use nf_sites::Sort;

/// The field by which each label of an object is known, if it is, in text order: of a chain its
/// labels, at most 136; of an array the one label, the index.
pub type Known = Limited<Option<Hashable>, 136>;

/// An object that is touched at a place of a handler's text, and what is known of its labels there.
#[derive(Drop)]
pub struct Site {
    pub object: ObjectId,
    pub door: Door,
    /// The place's number in the function's text.
    pub place: u32,
    pub sort: Sort,
    pub known: Known,
}
