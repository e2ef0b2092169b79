//! A certificate under a name, judged for the function under another.
ghost use Rattle.std.specs.Prelude.{◌≡◌, IfOk, string_bytes};
ghost use Rattle.nf_base.specs.Functions.{function_of};
ghost use Rattle.shard_rules.specs.Served.{own_sites, own_plan};
ghost use Rattle.command_words.specs.View as view;
ghost use Rattle.call_base.specs.Source.{HasFewPaths};
ghost use Rattle.call_base.specs.Outside.{seen};
ghost use Rattle.certify_call.specs.Judgements.{IsJudgement};
ghost use Rattle.certify_call.specs.Certifying.{TellsJudgement, JudgesUnder, JudgesTo};

use crate::judgement::Judgement;
use access_keys::Site;
use call_base::analysing::own_sites;
use call_base::loading::{NoFunction, read_function, read_text};
use call_base::say::print_out;
use call_base::status::{CallFault, RunFile};
use command_words::CertifyCommand;
use key_proof::{CertifyFault, certify};
use nf_base::func::Func;
use nf_files::{Files, FilesFault};
use shard_rules::{Plan, join};
use std::alloc::{AllocError, Global};

// What a text comes to, by the sites of a function and their plan.
fn judged_by_plan(
    alloc: Global,
    func: &Func,
    sites: &[Site],
    plan: &Plan,
    text: &[u8],
) -> Result<Judgement, AllocError>
    requires sites { sites.now ≡ own_sites (function_of func.now) }
    requires plan { plan.now ≡ own_plan (function_of func.now) }
    ensures { IfOk result (IsJudgement (function_of func.now) text.now) }
{
    match certify(alloc, func, sites, plan, text) {
        Ok(_verdict) => Ok(Judgement::Right),
        Err(CertifyFault::Fails(line)) => Ok(Judgement::Fails { line: line as u64 }),
        Err(CertifyFault::Memory) => Err(AllocError),
    }
}

// The same by the sites.
fn judged_by_sites(
    alloc: Global,
    func: &Func,
    sites: &[Site],
    text: &[u8],
) -> Result<Judgement, AllocError>
    requires sites { sites.now ≡ own_sites (function_of func.now) }
    ensures { IfOk result (IsJudgement (function_of func.now) text.now) }
{
    match join(alloc, func, sites) {
        Ok(plan) => judged_by_plan(alloc, func, sites, &plan, text),
        Err(error) => Err(error),
    }
}

// What a text comes to as a function's certificate.
fn judgement_of(alloc: Global, func: &Func, text: &[u8]) -> Result<Judgement, AllocError>
    requires few { HasFewPaths (function_of func.now) }
    ensures { IfOk result (IsJudgement (function_of func.now) text.now) }
{
    match own_sites(alloc, func) {
        Ok(sites) => judged_by_sites(alloc, func, sites.as_slice(), text),
        Err(error) => Err(error),
    }
}

// Prints where a certificate is right.
fn print_judged<F: Files>(files: &mut F, judged: Judgement) -> Result<Judgement, CallFault>
    ensures { TellsJudgement judged (seen (F.told files.old) (F.counted files.old))
        (seen (F.told files.new) (F.counted files.new)) result }
{
    match judged {
        Judgement::Right => match print_out(files, b"certified\n") {
            Ok(()) => Ok(judged),
            Err(stop) => Err(stop),
        },
        Judgement::Fails { .. } => Ok(judged),
    }
}

// Judges what stands under a name as a certificate of a function.
fn judge_under<F: Files>(
    alloc: Global,
    files: &mut F,
    func: &Func,
    name: &String,
) -> Result<Judgement, CallFault>
    requires few { HasFewPaths (function_of func.now) }
    ensures { JudgesUnder (function_of func.now) (string_bytes name.now)
        (seen (F.told files.old) (F.counted files.old))
        (seen (F.told files.new) (F.counted files.new)) result }
{
    match read_text(alloc, files, name) {
        Ok(text) => match judgement_of(alloc, func, text.bytes.as_slice()) {
            Ok(judged) => print_judged(files, judged),
            Err(_) => Err(CallFault::Memory),
        },
        Err(FilesFault::Failed) => Err(CallFault::File(RunFile::Proof)),
        Err(FilesFault::Memory(_)) => Err(CallFault::Memory),
    }
}

/// Judges the certificate that is asked for, and prints `certified` where no line of it is wrong.
///
/// The function's text is read first. The certificate is opened where that is a network function.
pub fn judge<F: Files>(
    alloc: Global,
    files: &mut F,
    command: &CertifyCommand,
) -> Result<Judgement, NoFunction>
    ensures { JudgesTo (view.certify command.now) (seen (F.told files.old) (F.counted files.old))
        (seen (F.told files.new) (F.counted files.new)) result }
{
    match read_function(alloc, files, &command.function) {
        Ok(found) => match judge_under(alloc, files, &found.source.func, &command.proof) {
            Ok(judged) => Ok(judged),
            Err(stop) => Err(NoFunction::Stop(stop)),
        },
        Err(none) => Err(none),
    }
}
