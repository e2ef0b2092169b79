//! From a text to its tree.

ghost use Rattle.std.specs.Prelude.{◌≡◌, ◌++◌, ◌∷◌, [], List, ℕ, true, false, IfOk, IfErr};
ghost use Rattle.nf_tokens.specs.declared.token.Place.{Place};
ghost use Rattle.nf_tree.specs.View.{tree_of};
ghost use Rattle.nf_syntax.specs.declared.fault.SyntaxKind.{SyntaxKind};
ghost use Rattle.nf_syntax.specs.declared.fault.ParseFault.TheVariants.{Syntax};
ghost use Rattle.nf_syntax.specs.Items.{Item, Marked};
ghost use Rattle.nf_syntax.specs.Language.{SyntaxTree, marked, CanGoOn, IsTreeOf, IsTextOf, IsShallow, IsFirstFault, IsFault, Gives, Finds, Explains};

use crate::fault::{ParseFault, SyntaxKind, TokenFault};
use crate::function::whole;
use nf_tokens::{Place, Placed, end_of, tokens};
use nf_tree::Tree;
use std::alloc::Global;

/// The longest text, in bytes.
const LONGEST: usize = 1048576;

/// The tree that these tokens spell, all of them.
fn read(alloc: Global, placed: &[Placed]) -> Result<Tree, TokenFault>
    ensures found { IfOk result (λ tree. IsTreeOf placed.now (tree_of tree)) }
    ensures only { (tree : SyntaxTree) → IsTreeOf placed.now tree → Finds tree_of tree result }
    ensures first { IfErr result (λ stop. IsFirstFault stop placed.now) }
{
    whole(alloc, placed)
}

fn fault(kind: SyntaxKind, place: Place) -> ParseFault
    ensures { result ≡ Syntax kind place.line place.column }
{
    ParseFault::Syntax {
        kind,
        line: place.line,
        column: place.column,
    }
}

/// Reads the text of a network function, in ASCII.
///
/// A text of the grammar has one tree. Any other has a first fault: nothing behind it is looked at.
pub fn parse(alloc: Global, text: &[u8]) -> Result<Tree, ParseFault>
    // What is answered is spelled so.
    ensures found { IfOk result (λ tree. IsTextOf text.now (tree_of tree)) }
    // What is spelled so is answered, unless memory runs out.
    ensures only { (tree : SyntaxTree) → IsTextOf text.now tree → Gives tree_of tree result }
    ensures shallow { IfOk result (λ tree. IsShallow (tree_of tree)) }
    // What is wrong, and where.
    ensures first { IfErr result (λ fault. Explains fault text.now) }
{
    if text.len() > LONGEST {
        return Err(ParseFault::Syntax {
            kind: SyntaxKind::Limit,
            line: 1,
            column: 1,
        });
    }
    let Ok(placed) = tokens(alloc, text) else {
        return Err(ParseFault::Memory);
    };
    match read(alloc, placed.as_slice()) {
        Ok(tree) => Ok(tree),
        Err(TokenFault::Stuck(kind, place)) => Err(fault(kind, place)),
        Err(TokenFault::Past(place)) => Err(fault(SyntaxKind::Limit, place)),
        Err(TokenFault::Short) => Err(fault(SyntaxKind::End, end_of(text))),
        Err(TokenFault::Memory) => Err(ParseFault::Memory),
    }
}

/// A law: behind one front a token passes a limit in every text of the grammar, or in none. So the token of a
/// limit that is passed is the first that passes it, and no fault stands before it.
pub fn one_mark()
    ensures { (front : List Marked) (i : Item) → CanGoOn (front ++ marked i true ∷ []) → CanGoOn (front ++ marked i false ∷ []) → ⊥ }
{}

/// A law: a text has one fault at most, and none where it has a tree. So what `first` says of a fault
/// names its kind and its place.
pub fn one_fault()
    ensures one { (k l : SyntaxKind) (p q : Place) (text : List ℕ) → IsFault k p text → IsFault l q text → (k ≡ l) × (p ≡ q) }
    ensures none { (k : SyntaxKind) (p : Place) (text : List ℕ) (tree : SyntaxTree) → IsTextOf text tree → IsFault k p text → ⊥ }
{}
