//! Which fields of two tied inputs have to be equal.
ghost use Rattle.std.specs.Prelude.{◌≡◌, ◌<◌, ℕ, length, slice_index};
ghost use Rattle.key_rows.specs.Classes.{joined, class_of};

use nf_base::hash_fields::Hashable;

/// The class of each of the eight fields of two inputs, of which the first comes to one place and
/// the second to another: those of the first input are 0 to 3, in the order of the input, and those
/// of the second 4 to 7.
pub fn classes_of(first: &[Hashable], second: &[Hashable]) -> [usize; 8]
    requires { length first.now ≡ length second.now }
    ensures { (n : ℕ) → n < 8 → slice_index result n ≡ class_of first.now second.now n }
{
    let mut classes = [0, 1, 2, 3, 4, 5, 6, 7];
    for i in 0..first.len() {
        join(&mut classes, first[i].number(), 4 + second[i].number());
    }
    classes
}

/// Makes the classes of two fields one.
fn join(classes: &mut [usize; 8], a: usize, b: usize)
    requires first { a < 8 }
    requires second { b < 8 }
    ensures { (n : ℕ) → n < 8 →
        slice_index classes.new n ≡ joined a b (slice_index classes.old) n }
{
    let kept = classes[a];
    let gone = classes[b];
    for class in classes.iter_mut() {
        if *class == gone {
            *class = kept;
        }
    }
}
