//! What the input is refused for: the broken rule, and where it was broken.

ghost use Rattle.std.specs.Prelude.{◌≡◌, Some, alloc_error};
ghost use Rattle.edt_base.specs.FaultText.{rule_code, place_text, fault_text, is_limit};
ghost use Rattle.edt_base.specs.declared.fault.End.TheVariants as ending;

use crate::Text;
use std::alloc::{AllocError, AllocFailed};
use std::fmt;

/// A rule that input can break. Its name is the code that the note line shows: S for the source, V
/// for values and nodes, Y for YAML, B for bindings, C for C text, K for questions, L for limits.
#[derive(Clone, Copy, Debug, PartialEq, Eq)]
pub enum Rule {
    /// A token that no source continues with, or bytes that are no token.
    S1,
    /// Braces or brackets nested too deep, or an expression with too many tokens.
    S2,
    /// A statement that opens or deletes a node that isn't there.
    S3,
    /// A label that two nodes have.
    S4,
    /// A number that has no value or doesn't fit its cell.
    S5,
    /// A source that asks for another file.
    S6,
    /// A reference in a value to a node that isn't there.
    V1,
    /// A `phandle` of a wrong form, or one that two nodes have.
    V2,
    /// An alias that isn't the path of a node.
    V3,
    /// A required property that an okay node lacks.
    V10,
    /// A value of another type than its property has.
    V11,
    /// A property that the node's binding doesn't declare.
    V12,
    /// A value that its property's `enum` doesn't list.
    V13,
    /// A value other than its property's `const`.
    V14,
    /// A `reg` that doesn't divide into entries.
    V15,
    /// A register of size 0.
    V16,
    /// An `#address-cells` or `#size-cells` that is malformed or too large.
    V17,
    /// A `reg-names` that doesn't name each register.
    V18,
    /// A `ranges` that doesn't divide into entries.
    V19,
    /// A cell that should be a phandle, and is that of no node.
    V20,
    /// A node that a specifier names, without its count of cells.
    V21,
    /// A specifier with fewer cells than its controller wants.
    V22,
    /// A controller without a binding.
    V23,
    /// A controller whose binding names another number of cells.
    V24,
    /// Names of entries that don't name each entry.
    V25,
    /// A row of a map that ends too early.
    V26,
    /// A map without a row for the specifier.
    V27,
    /// A mask or a pass-through of another length than the specifier.
    V28,
    /// A specifier that goes through too many maps.
    V29,
    /// Interrupts of a node that has no interrupt parent.
    V30,
    /// Interrupts that end at a node that is no interrupt controller.
    V31,
    /// An interrupt controller without `#interrupt-cells`.
    V32,
    /// An `interrupts` that doesn't divide into entries.
    V33,
    /// A `reg` shorter than the unit address that an interrupt map compares.
    V34,
    /// An interrupt of a GIC without a type that the GIC knows.
    V35,
    /// Nodes that require one another in a circle.
    V36,
    /// Two definitions of one name that differ.
    V37,
    /// A range that reaches beyond 128 bits.
    V38,
    /// Text that is no YAML of the profile.
    Y1,
    /// A form of YAML that the profile leaves out.
    Y2,
    /// A key that stands twice in a map.
    Y3,
    /// YAML nested too deep.
    Y4,
    /// A binding that is no map.
    B1,
    /// A key that bindings don't have.
    B2,
    /// A binding without a description.
    B3,
    /// A key's value of a wrong form, or a type that isn't one.
    B4,
    /// A property without a type.
    B5,
    /// A phandle-array whose specifier space can't be told.
    B6,
    /// A `const` or `default` that doesn't fit its property's type.
    B7,
    /// A property that is both deprecated and required.
    B8,
    /// An include of a file that isn't listed, that leads to itself or that stands too deep.
    B9,
    /// A filter that both allows and blocks.
    B10,
    /// Settings of included files that disagree.
    B11,
    /// Two bindings for one compatible string on one bus.
    B12,
    /// Names of cells that are no list of strings.
    B13,
    /// An include of a name that two listed files have.
    B14,
    /// C text with bytes that are no token, or with an unclosed literal or comment.
    C1,
    /// A macro call that doesn't end on its line.
    C2,
    /// A macro call with a wrong number of arguments.
    C3,
    /// A `##` that makes no token.
    C4,
    /// A macro defined anew and otherwise, or a locked one undefined.
    C5,
    /// A directive that isn't one of those that are read, or a malformed one.
    C6,
    /// An expansion of too many units.
    C7,
    /// A conditional directive out of place, malformed, nested too deep or left open.
    C8,
    /// A condition that is no expression.
    C9,
    /// A condition that has no value in 64 bits.
    C10,
    /// A line that is no question.
    K1,
    /// Sources of too many bytes.
    L1,
    /// Too many binding files.
    L2,
    /// A binding file of too many bytes.
    L3,
    /// Binding files of too many bytes together.
    L4,
    /// A file to expand of too many bytes.
    L5,
    /// Files of definitions of too many bytes together.
    L6,
    /// Too many nodes, or paths of too many bytes together.
    L7,
    /// A property's value of too many bytes.
    L8,
    /// A header of too many bytes.
    L9,
    /// A printed source of too many bytes.
    L10,
}

impl Rule {
    /// Whether the rule is a limit: a run that passes one ends with the status of limits.
    pub fn is_limit(self) -> bool
        ensures { result ≡ is_limit self }
    {
        match self {
            Rule::L1
            | Rule::L2
            | Rule::L3
            | Rule::L4
            | Rule::L5
            | Rule::L6
            | Rule::L7
            | Rule::L8
            | Rule::L9
            | Rule::L10
            | Rule::C7 => true,
            _ => false,
        }
    }

    /// The rule's code, as note lines show it.
    #[tactic(auto, unfolding(crate::specs::FaultText::rule_code))]
    fn code(self) -> &'static str
        ensures { result.now ≡ rule_code self }
    {
        match self {
            Rule::S1 => "S1",
            Rule::S2 => "S2",
            Rule::S3 => "S3",
            Rule::S4 => "S4",
            Rule::S5 => "S5",
            Rule::S6 => "S6",
            Rule::V1 => "V1",
            Rule::V2 => "V2",
            Rule::V3 => "V3",
            Rule::V10 => "V10",
            Rule::V11 => "V11",
            Rule::V12 => "V12",
            Rule::V13 => "V13",
            Rule::V14 => "V14",
            Rule::V15 => "V15",
            Rule::V16 => "V16",
            Rule::V17 => "V17",
            Rule::V18 => "V18",
            Rule::V19 => "V19",
            Rule::V20 => "V20",
            Rule::V21 => "V21",
            Rule::V22 => "V22",
            Rule::V23 => "V23",
            Rule::V24 => "V24",
            Rule::V25 => "V25",
            Rule::V26 => "V26",
            Rule::V27 => "V27",
            Rule::V28 => "V28",
            Rule::V29 => "V29",
            Rule::V30 => "V30",
            Rule::V31 => "V31",
            Rule::V32 => "V32",
            Rule::V33 => "V33",
            Rule::V34 => "V34",
            Rule::V35 => "V35",
            Rule::V36 => "V36",
            Rule::V37 => "V37",
            Rule::V38 => "V38",
            Rule::Y1 => "Y1",
            Rule::Y2 => "Y2",
            Rule::Y3 => "Y3",
            Rule::Y4 => "Y4",
            Rule::B1 => "B1",
            Rule::B2 => "B2",
            Rule::B3 => "B3",
            Rule::B4 => "B4",
            Rule::B5 => "B5",
            Rule::B6 => "B6",
            Rule::B7 => "B7",
            Rule::B8 => "B8",
            Rule::B9 => "B9",
            Rule::B10 => "B10",
            Rule::B11 => "B11",
            Rule::B12 => "B12",
            Rule::B13 => "B13",
            Rule::B14 => "B14",
            Rule::C1 => "C1",
            Rule::C2 => "C2",
            Rule::C3 => "C3",
            Rule::C4 => "C4",
            Rule::C5 => "C5",
            Rule::C6 => "C6",
            Rule::C7 => "C7",
            Rule::C8 => "C8",
            Rule::C9 => "C9",
            Rule::C10 => "C10",
            Rule::K1 => "K1",
            Rule::L1 => "L1",
            Rule::L2 => "L2",
            Rule::L3 => "L3",
            Rule::L4 => "L4",
            Rule::L5 => "L5",
            Rule::L6 => "L6",
            Rule::L7 => "L7",
            Rule::L8 => "L8",
            Rule::L9 => "L9",
            Rule::L10 => "L10",
        }
    }
}

impl fmt::Display for Rule {
    ghost output = { λ rule. Some (rule_code rule) };

    fn fmt<W: fmt::Write>(&self, f: &mut fmt::Formatter<W>) -> fmt::Result {
        f.write_str(self.code())
    }
}

/// Where a rule was broken.
#[derive(Debug, Drop)]
pub enum Place {
    /// A byte of the named file, counted from 0.
    Byte(Text, u64),
    /// A line of the named file, counted from 1.
    Line(Text, u64),
    /// A file or a folder, by its name.
    File(Text),
    /// A node, by its path.
    Node(Text),
}

impl fmt::Display for Place {
    ghost output = { λ place. Some (place_text place) };

    fn fmt<W: fmt::Write>(&self, f: &mut fmt::Formatter<W>) -> fmt::Result {
        match self {
            Place::Byte(file, at) | Place::Line(file, at) => write!(f, "{}:{at}", file.as_str()),
            Place::File(name) | Place::Node(name) => f.write_str(name.as_str()),
        }
    }
}

/// A rule broken at a place.
#[derive(Debug, Drop)]
pub struct Fault {
    /// The rule.
    pub rule: Rule,
    /// Where it was broken.
    pub place: Place,
}

impl fmt::Display for Fault {
    ghost output = { λ fault. Some (fault_text fault) };

    fn fmt<W: fmt::Write>(&self, f: &mut fmt::Formatter<W>) -> fmt::Result {
        write!(f, "{} {}", self.rule, self.place)
    }
}

/// Why a call gave nothing: the input is refused, or memory was wanted.
#[derive(Debug, Drop)]
pub enum End {
    /// The input breaks a rule.
    Fault(Fault),
    /// Memory was wanted; the input may be good.
    Memory(AllocError),
}

impl From<AllocError> for End {
    ghost from_gives = { λ e end. end ≡ ending.Memory e };

    fn from(e: AllocError) -> End {
        End::Memory(e)
    }
}

impl<T: Drop> From<AllocFailed<T>> for End {
    ghost from_gives = { λ _ end. end ≡ ending.Memory alloc_error };

    fn from(_e: AllocFailed<T>) -> End {
        End::Memory(AllocError)
    }
}
