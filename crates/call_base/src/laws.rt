//! Laws of texts. Each function's contract is a law; its body does nothing.
ghost use Rattle.call_base.specs.Laws.{IsOneFunction, HasOneFault, IsNoFunctionWithFault};

/// A text is one function, or it has one first fault, and never both: so what is refused is no function, and
/// what is a function isn't refused.
pub fn a_text_is_a_function_or_has_a_fault()
    ensures function { IsOneFunction }
    ensures fault { HasOneFault }
    ensures apart { IsNoFunctionWithFault }
{}
