//! The parser: what is kept of the tokens so far, and what one more makes of it.

ghost use Rattle.std.specs.Prelude.{◌≡◌, ◌≤◌, ◌<◌, ◌&&◌, Ok, Err, true, if◌then◌else◌};
ghost use Rattle.dts_parse.specs.Fronts.{is_opening};
ghost use Rattle.dts_parse.specs.Inner.Machine.{in_rounds, is_body, is_whole, limited, start, step, taken};
ghost use Rattle.dts_parse.specs.Token.{is_include};
ghost use Rattle.dts_parse.specs.Inner.Shown.{Leaves, shown};

use crate::expressions::MOST_TOKENS;
use crate::mode::{Breach, Frame, Mode, Stage};
use crate::script::{RawCell, RawPart, Stmt};
use crate::stop::Stop;
use crate::terminal::Terminal;
use crate::token::Token;
use std::alloc::Global;
use std::marker::Model;

/// A name and where it stands.
#[derive(Drop)]
pub(crate) struct Name<'a> {
    pub(crate) at: u64,
    pub(crate) text: &'a [u8],
}

impl<'a> Model for Name<'a> {
    ghost use Rattle.std.specs.Prelude.{◌≡◌, true};
    ghost use Rattle.std.specs.List.{list_all};
    ghost use Rattle.dts_parse.specs.Token.{Spot, is_ascii};

    ghost Value = { Spot };

    ghost view = { λ n. record { at = n.at; text = n.text.now } };

    ghost invariant = { λ n. list_all is_ascii n.text.now ≡ true };
}

/// What follows the end of an open node.
#[derive(Drop)]
pub(crate) struct Pending {
    pub(crate) stmts: Vec<Stmt>,
}

impl Model for Pending {
    ghost use Rattle.std.specs.Prelude.{List};
    ghost use Rattle.dts_parse.specs.StmtData.{StmtData};

    ghost Value = { List StmtData };

    ghost view = { λ p. p.stmts.items };
}

/// What is kept of the tokens so far.
#[derive(Drop)]
pub(crate) struct Parser<'a> {
    /// Where in the grammar the next token stands.
    pub(crate) mode: Mode,
    /// A label's name stands before, and its colon follows.
    pub(crate) colon: bool,
    /// Which statements stood at the top.
    pub(crate) stage: Stage,
    /// How many braces and brackets are open.
    pub(crate) depth: u32,
    /// The open nodes, the innermost last.
    pub(crate) opened: Vec<Pending>,
    /// The labels of the statement so far.
    pub(crate) labels: Vec<Stmt>,
    /// Where the marks of the statement so far stand.
    pub(crate) marks: Vec<u64>,
    /// The name of the statement.
    pub(crate) name: Option<Name<'a>>,
    /// The parts of the value so far.
    pub(crate) parts: Vec<RawPart>,
    /// The cells of the list so far.
    pub(crate) cells: Vec<RawCell>,
    /// The bytes of the list so far.
    pub(crate) bytes: Vec<u8>,
    /// Where the directive or the expression begins.
    pub(crate) begin: u64,
    /// How many tokens the expression has, counted up to 4,096.
    pub(crate) long: u32,
    /// A number of 2 to the power of 64 or more stands in the expression.
    pub(crate) huge: bool,
    /// The open cases of the expression, the innermost last.
    pub(crate) frames: Vec<Frame>,
    /// The statements so far.
    pub(crate) out: Vec<Stmt>,
}

/// How many braces and brackets may be open.
const MOST_OPEN: u32 = 64;

fn is_include(terminal: Terminal) -> bool
    ensures { result ≡ is_include terminal }
{
    matches!(terminal, Terminal::Include)
}

/// A brace or bracket that opens; in expressions `<` is an operator.
fn is_opening(rounds: bool, terminal: Terminal) -> bool
    ensures { result ≡ is_opening rounds terminal }
{
    match terminal {
        Terminal::LeftBrace | Terminal::LeftSquare | Terminal::LeftRound => true,
        Terminal::Less => !rounds,
        _ => false,
    }
}

fn in_rounds(mode: Mode) -> bool
    ensures { result ≡ in_rounds mode }
{
    match mode {
        Mode::Operand(_) | Mode::Operator(_, _) => true,
        _ => false,
    }
}

fn is_body(mode: Mode) -> bool
    ensures { result ≡ is_body mode }
{
    match mode {
        Mode::Body => true,
        _ => false,
    }
}

impl<'a> Parser<'a> {
    /// In front of the first token of a base, or of an overlay.
    pub(crate) fn new(alloc: Global, base: bool) -> Parser<'a>
        ensures { shown result ≡ start base }
    {
        Parser {
            mode: Mode::Body,
            colon: false,
            stage: if base { Stage::First } else { Stage::Versions },
            depth: 0,
            opened: Vec::new(alloc),
            labels: Vec::new(alloc),
            marks: Vec::new(alloc),
            name: None,
            parts: Vec::new(alloc),
            cells: Vec::new(alloc),
            bytes: Vec::new(alloc),
            begin: 0,
            long: 0,
            huge: false,
            frames: Vec::new(alloc),
            out: Vec::new(alloc),
        }
    }

    /// A source may end here.
    pub(crate) fn is_whole(&self) -> bool
        ensures { result ≡ is_whole (shown self.now) }
    {
        is_body(self.mode) && !self.colon && self.is_bare() && self.takes_top()
    }

    /// Takes the next token.
    pub(crate) fn take(&mut self, alloc: Global, token: &Token<'a>) -> Result<(), Stop>
        ensures { Leaves (shown self.new) result (step (shown self.old) token.now) }
    {
        if is_include(token.terminal) {
            return Err(Stop::Broken(Breach::S6, token.at));
        }
        if is_opening(in_rounds(self.mode), token.terminal) && self.depth >= MOST_OPEN {
            return Err(Stop::Broken(Breach::S2, token.at));
        }
        if self.long >= MOST_TOKENS {
            self.take_limited(alloc, token)
        } else {
            self.take_token(alloc, token)
        }
    }

    /// Behind as many tokens as an expression may have: one that continues it is too many.
    fn take_limited(&mut self, alloc: Global, token: &Token<'a>) -> Result<(), Stop>
        requires { is_opening (in_rounds (shown self.old).mode) token.now.terminal ≡ true
            → (shown self.old).depth < 64 }
        ensures { Leaves (shown self.new) result
            (limited token.now.spot (taken (shown self.old) token.now.spot token.now.terminal)) }
    {
        let at = token.at;
        match self.take_token(alloc, token) {
            Ok(()) => Err(Stop::Broken(Breach::S2, at)),
            Err(Stop::Memory(e)) => Err(Stop::Memory(e)),
            Err(Stop::Broken(Breach::S1, place)) => Err(Stop::Broken(Breach::S1, place)),
            Err(Stop::Broken(_, _)) => Err(Stop::Broken(Breach::S2, at)),
        }
    }

    fn take_token(&mut self, alloc: Global, token: &Token<'a>) -> Result<(), Stop>
        requires { is_opening (in_rounds (shown self.old).mode) token.now.terminal ≡ true
            → (shown self.old).depth < 64 }
        ensures { Leaves (shown self.new) result
            (taken (shown self.old) token.now.spot token.now.terminal) }
    {
        if self.colon {
            return self.at_colon(token);
        }
        match self.mode {
            Mode::Body => self.in_body(alloc, token),
            Mode::Named(form) => self.named(alloc, form, token),
            Mode::Opening => self.at_brace(alloc, token),
            Mode::Ending => self.at_end(token),
            Mode::Directive(wanted) => self.directive(alloc, wanted, token),
            Mode::Value => self.in_value(alloc, token),
            Mode::Part => self.behind_part(alloc, token),
            Mode::Bits => self.behind_bits(token),
            Mode::Angle(width) => self.behind_width(width, token),
            Mode::Cells(width, listing) => self.in_cells(alloc, width, listing, token),
            Mode::Pairs(listing) => self.in_pairs(alloc, listing, token),
            Mode::Operand(width) => self.before_operand(width, token),
            Mode::Operator(width, worth) => self.behind_operand(width, worth, token),
        }
    }
}
