//! The eight fields of two inputs: those of the first are 0 to 3, in the order of the input, and
//! those of the second 4 to 7.
ghost use Rattle.std.specs.Prelude.{◌≡◌, ◌+◌, ◌*◌, ◌<◌, ◌≤◌, ℕ, IfSome, length, slice_index};
ghost use Rattle.nf_base.specs.Hashed.{address_width};
ghost use Rattle.key_rows.specs.Classes.{width_at, end_at, joined, class_of};
ghost use Rattle.certificate_laws.specs.Certificates.{place_number};
ghost use Rattle.key_proof.specs.Rows.{field_in, field_of};

use certificate_laws::Side;
use key_rows::Place;
use nf_base::hash_fields::Hashable;
use nf_base::packet::Family;

/// How many bits an address has.
fn address_width(family: Family) -> u32
    ensures value { result ≡ address_width family }
    ensures within { result ≤ 128 }
{
    match family {
        Family::Four => 32,
        Family::Six => 128,
    }
}

/// How many bits a field has.
pub fn width_at(first: Family, second: Family, n: usize) -> u32
    requires { n < 8 }
    ensures value { result ≡ width_at first second n }
    ensures within { result ≤ 128 }
{
    let a = address_width(first);
    let b = address_width(second);
    [a, a, 16, 16, b, b, 16, 16][n]
}

/// Behind which bit of its input a field ends.
#[tactic(auto, using(key_rows::proofs::Rowed::ends_within, key_rows::proofs::Rowed::ends_wide))]
pub fn end_at(first: Family, second: Family, n: usize) -> u32
    requires { n < 8 }
    ensures value { result ≡ end_at first second n }
    ensures within { result ≤ 288 }
    ensures wide { width_at first second n ≤ result }
{
    let a = address_width(first);
    let b = address_width(second);
    [
        a,
        a + a,
        a + a + 16,
        a + a + 16 + 16,
        b,
        b + b,
        b + b + 16,
        b + b + 16 + 16,
    ][n]
}

/// The class of each field: fields of one class are those that labels make equal.
pub fn classes_of(first: &[Hashable], second: &[Hashable]) -> [usize; 8]
    requires { length first.now ≡ length second.now }
    ensures { (n : ℕ) → n < 8 → slice_index result n ≡ class_of first.now second.now n }
{
    let mut classes = [0, 1, 2, 3, 4, 5, 6, 7];
    for i in 0..first.len() {
        join(&mut classes, first[i].number(), 4 + second[i].number());
    }
    classes
}

/// Makes the classes of two fields one.
fn join(classes: &mut [usize; 8], a: usize, b: usize)
    requires first { a < 8 }
    requires second { b < 8 }
    ensures { (n : ℕ) → n < 8 →
        slice_index classes.new n ≡ joined a b (slice_index classes.old) n }
{
    let kept = classes[a];
    let gone = classes[b];
    for class in classes.iter_mut() {
        if *class == gone {
            *class = kept;
        }
    }
}

/// Which field of an input a bit is of.
fn field_in(family: Family, input: u32) -> Option<usize>
    ensures value { result ≡ field_in family input }
    ensures within { IfSome result (λ n. n < 4) }
    ensures first { (other : Family) → IfSome result (λ n. input < end_at family other n) }
    ensures second { (other : Family) → IfSome result (λ n. input < end_at other family (4 + n)) }
{
    let width = address_width(family);
    if input < width {
        Some(0)
    } else if input < width + width {
        Some(1)
    } else if input < width + width + 16 {
        Some(2)
    } else if input < width + width + 16 + 16 {
        Some(3)
    } else {
        None
    }
}

/// Which of the eight fields a bit is of.
pub fn field_of(first: &Place, second: &Place, side: Side, input: u32) -> Option<usize>
    ensures value { result ≡ field_of first.now second.now side input }
    ensures within { IfSome result (λ n. n < 8) }
    ensures inside { IfSome result (λ n. input < end_at first.now.family second.now.family n) }
{
    match side {
        Side::First => field_in(first.family, input),
        Side::Second => match field_in(second.family, input) {
            Some(n) => Some(4 + n),
            None => None,
        },
    }
}

/// The number of bit `u` of the window of a field.
pub fn place_number(first: &Place, second: &Place, n: usize, u: u32) -> u32
    requires field { n < 8 }
    requires bit { u < width_at first.now.family second.now.family n + 31 }
    requires first { first.now.port < 4 }
    requires second { second.now.port < 4 }
    ensures value { result ≡ place_number first.now second.now n u }
    ensures within { (ports : ℕ) → first.now.port < ports → second.now.port < ports →
        result < 319 * ports }
{
    let port = if n < 4 { first.port } else { second.port };
    let end = end_at(first.family, second.family, n);
    319 * port + (end + 30 - u)
}
