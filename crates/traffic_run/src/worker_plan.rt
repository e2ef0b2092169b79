//! Who handles the packets of a run.

use nf_base::keys::Keys;
use nf_base::workers::Workers;

/// Who handles the packets of a run.
#[derive(Drop)]
pub enum WorkerPlan {
    /// One worker.
    One,
    /// So many that share nothing, under these keys.
    Shards(Keys, Workers),
    /// So many that share all tables; where the gate refuses, one.
    Sharing(Workers),
}
