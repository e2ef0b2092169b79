//! The commutation law of sharded runs. Each function's contract is one law; its body does nothing.
#![tactic(auto)]

pub mod rows;
pub mod shares;

ghost use Rattle.shard_laws.specs.Laws.{SeenIsPart, PartsAge, OperationsAgree, QuestionsAgree, CreationsAgree, PacketsStepAlike, QueuesRun, UndividedRuns, QueuesCompose, MeetingQueuesCompose, MeetingUndividedRuns, UnionsAreOne};

/// What a queue sees of a state is its part, and goes on as the whole state does, statement by
/// statement.
pub fn parts_do_alike()
    ensures seen { SeenIsPart }
    ensures aging { PartsAge }
    ensures operations { OperationsAgree }
    ensures questions { QuestionsAgree }
    ensures creations { CreationsAgree }
{}

/// One packet, on the part of its queue and on the whole state.
pub fn packets_step_alike()
    ensures { PacketsStepAlike }
{}

/// The run over each queue's packets has a meaning and gives each packet its answer, where each
/// location is touched by packets of one queue.
pub fn queues_run()
    ensures { QueuesRun }
{}

/// The other way: where the run over each queue's packets has a meaning, so has the run of all.
pub fn queues_give_a_meaning()
    ensures { UndividedRuns }
{}

/// The commutation law: the runs of the queues make up the run of all packets, where each location
/// is touched by packets of one queue.
pub fn shards_compose()
    ensures { QueuesCompose }
{}

/// The commutation law, where any two packets that meet have one queue.
pub fn meeting_queues_compose()
    ensures { MeetingQueuesCompose }
{}

/// The other way, where any two packets that meet have one queue.
pub fn meeting_queues_give_a_meaning()
    ensures { MeetingUndividedRuns }
{}

/// The union of the queues' last states is one state.
pub fn unions_are_one()
    ensures { UnionsAreOne }
{}
