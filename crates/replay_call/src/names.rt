//! The names that a replay opens behind the captures.
ghost use Rattle.std.specs.Prelude.{◌≡◌, ◌≤◌, ◌∷◌, IfOk, map, string_bytes};
ghost use Rattle.std.specs.List.{range_with_len};
ghost use Rattle.call_base.specs.Names.{output_name};

use call_base::names::output_name;
use capture_format::CaptureFormat;
use std::alloc::{AllocError, Global};

/// The name of the journal, and behind it those of the outputs of so many ports, of this format.
pub(crate) fn names_behind(
    alloc: Global,
    journal: &String,
    format: CaptureFormat,
    out: &String,
    ports: u32,
) -> Result<Vec<String>, AllocError>
    ensures names { let name = output_name format (string_bytes out.now) in
        let outputs = map name (range_with_len 0 ports) in
        IfOk result (λ names. map string_bytes names.items ≡ string_bytes journal.now ∷ outputs) }
{
    let mut names = Vec::new(alloc);
    names.push(String::from_str(alloc, journal)?)?;
    for port in 0..ports {
        names.push(output_name(alloc, format, out, port)?)?;
    }
    Ok(names)
}
