//! A seat that looks at the packet that it put.
ghost use Rattle.std.specs.Prelude.{◌≡◌, ◌<◌, Bool, length};
ghost use Rattle.nf_base.specs.Doors.{served_fields, IsServed};
ghost use Rattle.nf_base.specs.Functions.{function_of};

use crate::outcome::function;
use lock_mode::{
    CloseRefused, Gate, LookResult, Naming, NewCounter, Opened, PackGate, Seat, Shared,
};
use nf_base::done::Action;
use nf_base::func::Func;
use nf_base::mac::Mac;
use nf_base::packet::{Addresses, Fields, Packet, PacketId};
use std::alloc::{AllocError, Global};
use std::marker::Brand;
use std::sync::Wait;

/// What the seat saw: whether something would have to be written before it put the packet, and what it came to behind
/// that, with how many choices.
#[derive(Clone, Copy, Debug, PartialEq, Eq)]
pub struct Seen {
    pub needs_write: bool,
    pub action: Option<Action>,
    pub picks: usize,
}

/// A packet of port 0, of the first station to the second.
fn packet() -> Packet
    ensures port { result.id.port ≡ 0 }
    // It is no IPv6 packet.
    ensures fields { (six : Bool) → result.fields ≡ served_fields six result.fields }
{
    Packet {
        id: PacketId { port: 0, seq: 0 },
        time: 5,
        fields: Some(Fields {
            length: 42,
            src_mac: Mac::new(10),
            dst_mac: Mac::new(11),
            addresses: Addresses::Four {
                src: 16_843_009,
                dst: 33_686_018,
            },
            proto: 17,
            ttl: 64,
            src_port: 1,
            dst_port: 2,
        }),
    }
}

fn look_twice<J: Naming, R: Wait>(
    rt: &R,
    shared: &Shared<J>,
    seat: &mut Seat<J, PackGate>,
    packet: &Packet,
) -> Result<Seen, AllocError>
    requires port { packet.now.id.port < length J.function.handlers }
    requires served { IsServed J.function packet.now }
{
    let mut seen = Seen {
        needs_write: false,
        action: None,
        picks: 0,
    };
    seat.reserve(1)?;
    if let LookResult::NeedsWrite = seat.look(packet) {
        seen.needs_write = true;
    }
    shared.alone(rt, seat, packet)?;
    seat.reserve(1)?;
    if let LookResult::Done(done) = seat.look(packet) {
        seen.action = Some(done.action);
        seen.picks = done.picks.as_slice().len();
    }
    Ok(seen)
}

fn read_back<J: Naming, R: Wait>(
    rt: &R,
    alloc: Global,
    func: &Func,
    book: NewCounter,
) -> Result<Option<Seen>, AllocError>
    requires seats { J.seats ≡ 1 }
    requires function { function_of func.now ≡ J.function }
    requires book { book.seen.book ≡ J.book }
    requires ports { 0 < length J.function.handlers }
{
    let mut gate = PackGate::new();
    match Shared::<J>::new(rt, alloc, func, 1, book, &mut gate) {
        Ok(Opened::Many(shared, seats)) => {
            let mut seats = seats;
            let seen = look_twice(rt, &shared, &mut seats[0], &packet());
            shared.give_up(rt, seats);
            match seen {
                Ok(seen) => Ok(Some(seen)),
                Err(refused) => Err(refused),
            }
        }
        Ok(Opened::OneSeat(_)) => Ok(None),
        Err(refused) => Err(refused),
    }
}

fn read_anew<R: Wait>(rt: &R, alloc: Global, func: &Func) -> Result<Option<Seen>, AllocError>
    requires { 0 < length func.now.handlers }
{
    let book = NewCounter::new();
    read_back::<Brand, R>(rt, alloc, func, book)
}

/// One seat of a function looks at a packet, puts it alone, and looks at it again: None where the text is no function,
/// or its tables are not shared.
pub fn seen_again<R: Wait>(rt: &R, alloc: Global, text: &str) -> Result<Option<Seen>, AllocError> {
    match function(alloc, text.as_bytes()) {
        Some(func) => {
            if func.handlers.len() == 0 {
                return Ok(None);
            }
            read_anew(rt, alloc, &func)
        }
        None => Ok(None),
    }
}
