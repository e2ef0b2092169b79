//! Laws of tests and paths. Each function's contract is a law; its body does nothing.
ghost use Rattle.path_walk.specs.Laws.{TextsAreTheirTokens, FeasibleIs, IsFeasibleWhere, PacketsTakeFeasiblePaths, OutcomesAreListed, PathsAreListedOnce};
ghost use Rattle.path_walk.specs.Rows.{PathsBranchAs, StatementsAreReached};

/// Tests of one text have the same sign and the same sides.
pub fn texts_are_their_tokens()
    ensures { TextsAreTheirTokens }
{}

/// Feasible are the paths on which no test goes both ways, and no field is two numbers.
pub fn feasible_paths_go_one_way()
    ensures one_way { FeasibleIs }
    ensures exactly { IsFeasibleWhere }
{}

/// The path that a handled packet takes is a feasible one of its port, at any state and with any
/// choices, and where it has a step the step's outcomes are those along such a path.
pub fn packets_take_feasible_paths()
    ensures paths { PacketsTakeFeasiblePaths }
    ensures outcomes { OutcomesAreListed }
{}

/// No two feasible paths of a block branch alike, so how a path branches says which one it is.
pub fn paths_branch_apart()
    ensures { PathsAreListedOnce }
{}

/// How the paths of some small blocks branch, worked out by hand.
pub fn small_blocks_branch_so()
    ensures { PathsBranchAs }
{}

/// Which statements the feasible paths of some small blocks come to, worked out by hand.
pub fn small_blocks_are_reached_so()
    ensures { StatementsAreReached }
{}
