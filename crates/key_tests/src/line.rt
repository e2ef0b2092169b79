//! The objects of one line, and their keys.
use key_rows::{Object, Place, nearest_keys};
use nf_base::card::{Card, KeySize, TableSize};
use nf_base::hash_fields::Hashable;
use nf_base::keys::Keys;
use nf_base::packet::Family;
use nf_base::seq::Seq;
use std::alloc::{AllocError, Global};

/// What is printed of a line.
pub fn answer(alloc: Global, line: &str) -> Result<String, AllocError> {
    let Some((ports, behind)) = line.split_once('|') else {
        return String::from_str(alloc, "no objects");
    };
    let objects = objects(alloc, behind)?;
    let (count, six) = handlers(ports);
    let card = card(ports);
    if count > 4 {
        return String::from_str(alloc, "too many ports");
    }
    match nearest_keys(alloc, &six[..count as usize], objects.as_slice(), card)? {
        Some(keys) => text(alloc, &keys),
        None => String::from_str(alloc, "none"),
    }
}

/// How many ports, and of each of the first four whether it has a handler for IPv6.
fn handlers(words: &str) -> (u32, [bool; 4]) {
    let mut count = u32::MAX;
    let mut six = [false; 4];
    for (i, word) in words.split_whitespace().enumerate() {
        let number = number(word);
        if i == 0 {
            count = number;
        } else if number < 4 {
            six[number as usize] = true;
        }
    }
    (count, six)
}

/// The card of a line: `512` names a table of as many entries, and `52` keys of as many bytes.
fn card(words: &str) -> Card {
    let mut card = Card::usual();
    for word in words.split_whitespace() {
        match word {
            "512" => card.table = TableSize::Entries512,
            "52" => card.key = KeySize::Bytes52,
            _ => {}
        }
    }
    card
}

/// The objects of a line.
pub fn objects(alloc: Global, text: &str) -> Result<Vec<Object>, AllocError> {
    let mut objects = Vec::new(alloc);
    for words in text.split('|') {
        objects.push(object(alloc, words)?)?;
    }
    Ok(objects)
}

fn object(alloc: Global, words: &str) -> Result<Object, AllocError> {
    let mut places = Seq::new(alloc);
    for word in words.split_whitespace() {
        places.push(place(alloc, word)?)?;
    }
    Ok(Object { places })
}

fn place(alloc: Global, word: &str) -> Result<Place, AllocError> {
    let (port, fields) = match word.split_once(':') {
        Some(parts) => parts,
        None => (word, ""),
    };
    let (port, family) = match port.strip_suffix("six") {
        Some(port) => (port, Family::Six),
        None => (port, Family::Four),
    };
    let mut known = Seq::new(alloc);
    for name in fields.split(',') {
        if let Some(field) = field(name) {
            known.push(field)?;
        }
    }
    Ok(Place {
        port: number(port),
        family,
        known,
    })
}

fn field(name: &str) -> Option<Hashable> {
    match name {
        "src_ip" => Some(Hashable::SrcIp),
        "dst_ip" => Some(Hashable::DstIp),
        "src_port" => Some(Hashable::SrcPort),
        "dst_port" => Some(Hashable::DstPort),
        _ => None,
    }
}

/// A number of ports, or of a port: the largest one where the word is none.
fn number(word: &str) -> u32 {
    word.trim().parse().unwrap_or(u32::MAX)
}

/// Keys in hexadecimal, port by port.
pub fn text(alloc: Global, keys: &Keys) -> Result<String, AllocError> {
    let mut text = String::new(alloc);
    for key in keys.ports.as_slice() {
        if !text.is_empty() {
            text.push(' ')?;
        }
        for byte in key.as_slice() {
            text.push_str(&format!(in alloc; "{byte:02x}")?)?;
        }
    }
    Ok(text)
}
