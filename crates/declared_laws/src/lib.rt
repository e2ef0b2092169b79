//! The law that a checked function declares each object that it comes to. The function's contract
//! is the law; its body does nothing.
#![tactic(auto)]

ghost use Rattle.declared_laws.specs.Declares.{FunctionsDeclareTheirObjects};

/// The function of a text that breaks no rule declares the object of each of its sites.
pub fn functions_declare_their_objects()
    ensures { FunctionsDeclareTheirObjects }
{}
