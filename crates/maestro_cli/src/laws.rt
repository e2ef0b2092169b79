//! What the program promises, as one statement.
ghost use Rattle.maestro_cli.specs.Headline.{HeadlineOfRun, HeadlineOfGen, OnlyWhereNoneSpread};

use key_synth::laws::meeting_packets_hash_alike;

/// The headline, of any answer of `maestro` as its clause `answer` has it.
///
/// Where `run` or `gen` has answered with status 0, 5 or 7:
///
/// - the text that stood under the function's name is a network function;
/// - each packet was handled once: in capture order, or, by workers that share the tables, with those of
///   each port in that order; all packets, or at status 7 as many as may be, and there are more;
/// - the journal lists them in the order in which they were handled, and one undivided run over it, from
///   empty tables, sends the very packets that the outputs hold and leaves the very tables that the state
///   tells, however many workers there were; its first line tells the network card that was asked for;
/// - where the workers share nothing, the keys are those that the function is given for this card, and any
///   two packets that meet in any run of the function, at one location of its state that is written, have
///   equal hashes under them: so they came to one worker;
/// - workers share the tables only where mode `lock` is asked for or where no admissible keys spread.
///
/// Keys are refused, at status 8, only where no admissible keys spread.
pub fn the_headline()
    ensures run { HeadlineOfRun }
    ensures made { HeadlineOfGen }
    ensures refused { OnlyWhereNoneSpread }
{
    // Admissible keys hash alike any two packets that meet.
    meeting_packets_hash_alike();
}
