//! Waiting at a ring: at first by looking again, then asleep until the other side rings.
ghost use Rattle.std.specs.Prelude.{◌≡◌, [], ◌∷◌, ◌++◌, IfSome, IfNone};
ghost use Rattle.rtrb.specs.Ring.{sent, received, SameConsumer, SameProducer};

use rtrb::{Consumer, Producer, PushError};
use std::hint::spin_loop;
use std::sync::Wait;
use std::thread::{self, Parker, Threads};

/// How often a thread looks again before it sleeps, where each may have a processor: for a twentieth of a
/// millisecond. To be woken costs the other side more than a packet does.
const MANY_LOOKS: u32 = 1_000;

/// The same where another thread is known to want the processor.
const FEW_LOOKS: u32 = 50;

/// How far looking is trusted at first and at most.
const FULL_TRUST: u32 = 16;

/// From here on a thread looks often.
const TRUST: u32 = 8;

/// How much trust is lost where looking often didn't help; it grows by one where it did.
const LOSS: u32 = 4;

/// Where looking isn't trusted, one wait in so many looks often all the same: others may have gone since.
const SOMETIMES: u32 = 16;

/// How often a thread looks again before it sleeps: often as long as four waits of five end by that, and
/// else seldom, for then who is waited for may want this very processor.
#[derive(Clone, Copy, Debug, PartialEq, Eq)]
pub struct Looks {
    most: u32,
    trust: u32,
    // How many waits there were since looking was trusted.
    since: u32,
}

impl Looks {
    /// How often each of so many threads looks again.
    pub fn of<R: Threads>(rt: &R, threads: usize) -> Looks {
        Looks {
            most: most_for(rt, threads),
            trust: FULL_TRUST,
            since: 0,
        }
    }

    /// How often it looks at this wait.
    fn now(&self) -> u32 {
        if self.trust >= TRUST || self.since >= SOMETIMES {
            self.most
        } else {
            FEW_LOOKS
        }
    }

    /// An item came while it looked.
    fn helped(&mut self) {
        if self.trust >= TRUST {
            self.trust = self.trust.saturating_add(1).min(FULL_TRUST);
        } else if self.since >= SOMETIMES {
            self.trust = TRUST;
            self.since = 0;
        } else {
            self.since = self.since.saturating_add(1);
        }
    }

    /// None did.
    fn failed(&mut self) {
        if self.trust >= TRUST {
            self.trust = self.trust.saturating_sub(LOSS);
            self.since = 0;
        } else if self.since >= SOMETIMES {
            self.since = 0;
        } else {
            self.since = self.since.saturating_add(1);
        }
    }
}

/// How often each of so many threads looks again at most.
fn most_for<R: Threads>(rt: &R, threads: usize) -> u32 {
    match thread::available_parallelism(rt) {
        Ok(processors) => {
            if threads <= processors.get() {
                MANY_LOOKS
            } else {
                FEW_LOOKS
            }
        }
        Err(_) => FEW_LOOKS,
    }
}

/// The next item, if there is one.
pub fn pop<T>(from: &mut Consumer<T>) -> Option<T>
    ensures ring { SameConsumer from.old from.new }
    ensures some { IfSome result (λ item. received from.new ≡ received from.old ++ item ∷ []) }
    ensures none { IfNone result (received from.new ≡ received from.old) }
{
    match from.pop() {
        Ok(item) => Some(item),
        Err(_) => None,
    }
}

/// The next item, if it comes while it is looked for again so often.
fn look<T>(from: &mut Consumer<T>, looks: u32) -> Option<T>
    ensures ring { SameConsumer from.old from.new }
    ensures some { IfSome result (λ item. received from.new ≡ received from.old ++ item ∷ []) }
    ensures none { IfNone result (received from.new ≡ received from.old) }
{
    for _ in 0..looks {
        spin_loop();
        if let Some(item) = pop(from) {
            return Some(item);
        }
    }
    None
}

/// Sleeps until an item comes. No ring is missed: one that comes before the sleep ends it at once.
fn sleep<T, R: Wait>(rt: &R, from: &mut Consumer<T>, bell: &Parker) -> T
    ensures ring { SameConsumer from.old from.new }
    ensures received { received from.new ≡ received from.old ++ result ∷ [] }
{
    for _ in rt.forever() {
        if let Some(item) = pop(from) {
            return item;
        }
        bell.park(rt);
    }
    unreachable!()
}

/// The next item, if it is there or comes soon.
fn spot<T>(from: &mut Consumer<T>, looks: &mut Looks) -> Option<T>
    ensures ring { SameConsumer from.old from.new }
    ensures some { IfSome result (λ item. received from.new ≡ received from.old ++ item ∷ []) }
    ensures none { IfNone result (received from.new ≡ received from.old) }
{
    if let Some(item) = pop(from) {
        return Some(item);
    }
    match look(from, looks.now()) {
        Some(item) => {
            looks.helped();
            Some(item)
        }
        None => {
            looks.failed();
            None
        }
    }
}

/// Waits for the next item, at first by looking again; the other side rings this bell after each one.
pub fn take<T, R: Wait>(rt: &R, from: &mut Consumer<T>, bell: &Parker, looks: &mut Looks) -> T
    ensures ring { SameConsumer from.old from.new }
    ensures received { received from.new ≡ received from.old ++ result ∷ [] }
{
    match spot(from, looks) {
        Some(item) => item,
        None => sleep(rt, from, bell),
    }
}

/// Pushes an item, and rings the bell of the other side. A ring has a place for each item that may
/// be under way, so this goes round once.
pub fn give<T, R: Wait>(rt: &R, to: &mut Producer<T>, item: T, bell: &Parker)
    ensures ring { SameProducer to.old to.new }
    ensures sent { sent to.new ≡ sent to.old ++ item ∷ [] }
{
    let mut item = item;
    for _ in rt.forever() {
        match to.push(item) {
            Ok(()) => {
                bell.unpark();
                return;
            }
            Err(PushError::Full(back)) => item = back,
        }
        spin_loop();
    }
    unreachable!()
}
