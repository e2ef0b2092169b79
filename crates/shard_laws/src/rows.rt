//! Worked rows: what two queues do with a few packets, as the definitions compute it.
ghost use Rattle.shard_laws.specs.Rows.{TwoQueuesShareARun, StatesAreMerged, TwoSharesKeepTheRule, OneFlowAtTwoQueues};

/// Each of two queues has its packets in order, and their answers.
pub fn two_queues_share_a_run()
    ensures { TwoQueuesShareARun }
{}

/// A merged cell is the one copy that differs, a merged stamp the greatest one, and a union has no
/// flow that is past its lifetime.
pub fn states_are_merged()
    ensures { StatesAreMerged }
{}

/// Lines with own indices keep the share rule; foreign indices and full chains break it.
pub fn lines_keep_the_rule()
    ensures { TwoSharesKeepTheRule }
{}

/// Two packets of one flow at two queues: they meet, and one of them has no step at its queue.
pub fn one_flow_at_two_queues()
    ensures { OneFlowAtTwoQueues }
{}
