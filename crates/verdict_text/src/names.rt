//! The names of maps, labels and fields, as they are printed.
ghost use Rattle.std.specs.Prelude.{◌≡◌};
ghost use Rattle.nf_base.specs.Functions.{function_of};
ghost use Rattle.verdict_text.specs.Names.{map_name, label_name, field_word};

use nf_base::decl::ObjectId;
use nf_base::func::Func;
use nf_base::hash_fields::Hashable;
use nf_base::packet::Family;

/// The name of a map of a chain.
pub fn map_name(func: &Func, object: ObjectId, map: u32) -> &[u8]
    ensures { result.now ≡ map_name (function_of func.now) object map }
{
    match object {
        ObjectId::Chain(chain) => match func.chains.as_slice().get(chain as usize) {
            None => &[],
            Some(decl) => match decl.maps.as_slice().get(map as usize) {
                None => &[],
                Some(map) => map.name.as_slice(),
            },
        },
        ObjectId::Array(_) => &[],
    }
}

/// The name of a label: an array's one label is its `index`.
pub fn label_name(func: &Func, object: ObjectId, label: u32) -> &[u8]
    ensures { result.now ≡ label_name (function_of func.now) object label }
{
    match object {
        ObjectId::Chain(chain) => match func.chains.as_slice().get(chain as usize) {
            None => &[],
            Some(decl) => match decl.labels.as_slice().get(label as usize) {
                None => &[],
                Some(label) => label.name.as_slice(),
            },
        },
        ObjectId::Array(_) => b"index",
    }
}

/// The word of a field of a packet of a family in a text.
pub fn field_word(family: Family, field: Hashable) -> &'static str
    ensures { result.now ≡ field_word family field }
{
    match (family, field) {
        (Family::Four, Hashable::SrcIp) => "src_ip",
        (Family::Four, Hashable::DstIp) => "dst_ip",
        (Family::Six, Hashable::SrcIp) => "src_ip6",
        (Family::Six, Hashable::DstIp) => "dst_ip6",
        (_, Hashable::SrcPort) => "src_port",
        (_, Hashable::DstPort) => "dst_port",
    }
}
