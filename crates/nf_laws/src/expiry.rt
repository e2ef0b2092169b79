//! What expiry leaves.
ghost use Rattle.nf_laws.specs.Expiry.{EntriesStayToTheirLastTick, ChainsExpire, NoChainIsLost, StepsExpireFirst};

/// An entry stays at the last nanosecond of its lifetime, and is gone at the next one.
pub fn entries_stay_to_their_last_tick()
    ensures { EntriesStayToTheirLastTick }
{}

/// After expiry what is past its lifetime is gone, its index vacant and its keys unbound, and the
/// rest stands.
pub fn chains_expire()
    ensures each { ChainsExpire }
    ensures lost { NoChainIsLost }
{}

/// What has expired by a packet's time makes no difference to its step.
pub fn steps_expire_first()
    ensures { StepsExpireFirst }
{}
