// Content that was put under a name.
ghost use Rattle.std.specs.Prelude.{◌≡◌, option_map};
ghost use Rattle.nf_files.specs.Memory.{put_under};

/// A name with its content.
#[derive(Drop)]
pub struct Named {
    pub name: Vec<u8>,
    pub bytes: Vec<u8>,
}

// What was put under a name, at last. The names stand newest first.
pub fn put_bytes<'a>(names: &'a [Named], name: &str) -> Option<&'a [u8]>
    ensures value { option_map (λ bytes. bytes.now) result ≡ put_under names.now name.now }
{
    'names: for k in 0..names.len() {
        if names[k].name.as_slice() == name.as_bytes() {
            return Some(names[k].bytes.as_slice());
        }
    }
    None
}
