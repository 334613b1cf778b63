//! Reads a small source: of the source format of the Devicetree Specification v0.4, section 6,
//! nodes alone, whose names have lower-case letters and digits.

ghost use Rattle.std.specs.Prelude.{◌≡◌, ◌<◌, ◌++◌, List, Option, IfOk, IfSome, IfNone, OnOk, MatchOption, map, option_map, true, Some, None};
ghost use Rattle.edt_run.specs.Forest.{Forest};
ghost use Rattle.edt_run.specs.Nodes.{forest_of, named};
ghost use Rattle.edt_run.specs.Reader.{after_step, brace_tokens, front_of};
ghost use Rattle.edt_run.specs.Reading.{can_enter, entered, left, nested, start, tokens_of};
ghost use Rattle.edt_run.specs.Small.{IsSmall, Token};

use crate::apart::are_apart;
use crate::node::Node;
use crate::token::{Brace, Tokens};
use edt_base::Text;
use std::alloc::{AllocError, Global};
use std::mem;

/// How deep braces may nest, the root's counted.
const MOST_BRACES: usize = 64;

/// How many nodes a source may have, the root counted.
const MOST_NODES: u32 = 65_535;

/// A node whose braces are open, and its siblings before it.
#[derive(Drop)]
struct Open {
    name: Text,
    before: Vec<Node>,
}

/// The nodes that are read so far.
#[derive(Drop)]
struct Reader {
    /// The open nodes below the root, the innermost last.
    outer: Vec<Open>,
    /// The nodes in the innermost braces.
    here: Vec<Node>,
    /// The nodes so far, the root counted.
    count: u32,
}

/// What one more brace leads to.
enum Step {
    /// The source goes on.
    On,
    /// The root's braces are closed, and these nodes are in them.
    Ended(Vec<Node>),
    /// The source is not small.
    Refused,
}

/// Reads a small source: gives the nodes below its root, or `None` where the source is not small.
/// The one error is want of memory.
pub(crate) fn read_small(alloc: Global, source: &[u8]) -> Result<Option<Vec<Node>>, AllocError>
    ensures found { IfOk result
        (λ r. IfSome r (λ nodes. IsSmall source.now (forest_of nodes.items))) }
    ensures none { IfOk result (λ r. IfNone r ((f : Forest) → IsSmall source.now f → ⊥)) }
{
    let mut tokens = Tokens::of(source);
    if !tokens.begins() {
        return Ok(None);
    }
    read_root(alloc, &mut tokens)
}

/// Reads what stands behind the brace of the root.
fn read_root(alloc: Global, tokens: &mut Tokens<'_>) -> Result<Option<Vec<Node>>, AllocError>
    ensures { IfOk result
        (λ r. option_map (λ nodes. forest_of nodes.items) r ≡ nested start (tokens_of tokens.old)) }
{
    let mut reader = Reader::new(alloc);
    while let Some(brace) = tokens.next_brace() {
        match reader.take(alloc, brace)? {
            Step::On => {}
            Step::Ended(nodes) => return Ok(tokens.next_token().is_none().then_some(nodes)),
            Step::Refused => return Ok(None),
        }
    }
    Ok(None)
}

impl Reader {
    /// In the braces of the root, with no node read yet.
    fn new(alloc: Global) -> Reader
        ensures { front_of result ≡ start }
    {
        Reader {
            outer: Vec::new(alloc),
            here: Vec::new(alloc),
            count: 1,
        }
    }

    /// Takes the next brace.
    fn take(&mut self, alloc: Global, brace: Brace<'_>) -> Result<Step, AllocError>
        ensures { IfOk result (λ step. (ts : List (Option Token)) →
            nested (front_of self.old) (brace_tokens brace.entry ++ ts)
            ≡ after_step step (front_of self.new) ts) }
    {
        match brace {
            Brace::Open(name) => {
                if !self.can_enter() {
                    return Ok(Step::Refused);
                }
                self.enter(alloc, name)?;
                Ok(Step::On)
            }
            Brace::Close => {
                if !are_apart(alloc, self.here.as_slice())? {
                    return Ok(Step::Refused);
                }
                match self.leave(alloc)? {
                    None => Ok(Step::On),
                    Some(nodes) => Ok(Step::Ended(nodes)),
                }
            }
        }
    }

    /// Whether one more node and the brace behind its name are within the limits.
    fn can_enter(&self) -> bool
        ensures { result ≡ can_enter (front_of self.now) }
    {
        self.outer.len() + 1 < MOST_BRACES && self.count < MOST_NODES
    }

    /// Goes into the braces of a node of this name.
    fn enter(&mut self, alloc: Global, name: &str) -> Result<(), AllocError>
        requires { can_enter (front_of self.old) ≡ true }
        ensures { OnOk result (front_of self.new ≡ entered (front_of self.old) name.now) }
    {
        let name = Text::new(String::from_str(alloc, name)?);
        let before = mem::replace(&mut self.here, Vec::new(alloc));
        self.outer.push(Open { name, before })?;
        self.count += 1;
        Ok(())
    }

    /// Goes out of the innermost braces. Gives the nodes in them where they are the root's.
    fn leave(&mut self, alloc: Global) -> Result<Option<Vec<Node>>, AllocError>
        ensures { IfOk result (λ nodes. MatchOption nodes
            (left (front_of self.old) ≡ Some (front_of self.new))
            (λ v. (left (front_of self.old) ≡ None)
            × (map named v.items ≡ (front_of self.old).here))) }
    {
        let below = mem::replace(&mut self.here, Vec::new(alloc));
        let Some(open) = self.outer.pop() else {
            return Ok(Some(below));
        };
        self.here = open.before;
        self.here.push(Node {
            name: open.name,
            below,
        })?;
        Ok(None)
    }
}
