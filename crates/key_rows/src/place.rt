use nf_base::hash_fields::Hashable;
use nf_base::packet::Family;
use nf_base::seq::Seq;

/// Where packets of a port come to an object.
#[derive(Drop)]
pub struct Place {
    /// The port whose key hashes the packets that come here.
    pub port: u32,
    /// The version of IP that they have.
    pub family: Family,
    /// The field of a packet that each label of the object is, here. The labels are in one order at
    /// all places of an object.
    pub known: Seq<Hashable>,
}

/// What packets share: a chain or an array that the function writes.
#[derive(Drop)]
pub struct Object {
    /// Where packets come to it.
    pub places: Seq<Place>,
}
