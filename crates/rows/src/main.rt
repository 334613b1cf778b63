//! Reads tables of rows, asks each layer what its rows ask, and says which answers are wrong.
//!
//! Each table of `data/` is of one layer, in the format that `table` reads. The first field of a
//! row is what the layer is asked; `is` has the answer, or `starts` and `ends` its two ends.
#![tactic(auto)]

mod bindings;
mod boards;
mod c_lines;
mod expansions;
mod interrupts;
mod objects;
mod orders;
mod properties;
mod records;
mod registers;
mod runs;
mod scripts;
mod source_tokens;
mod specifiers;
mod table;
mod three_nodes;
mod yaml_values;

use std::alloc::{AllocError, Global};
use std::process::ExitCode;
use std::{fs, io};
use table::{Row, rows};

/// A layer with a table of rows.
#[derive(Clone, Copy)]
enum Layer {
    EdtBase,
    DtsLex,
    DtsParse,
    YamlProfile,
    BindLoad,
    BindMerge,
    PhaNexus,
    IrqMap,
    RegRanges,
    PropTypes,
    DepOrder,
    CTokens,
    CMacro,
    EdtRun,
}

const LAYERS: [Layer; 14] = [
    Layer::EdtBase,
    Layer::DtsLex,
    Layer::DtsParse,
    Layer::YamlProfile,
    Layer::BindLoad,
    Layer::BindMerge,
    Layer::PhaNexus,
    Layer::IrqMap,
    Layer::RegRanges,
    Layer::PropTypes,
    Layer::DepOrder,
    Layer::CTokens,
    Layer::CMacro,
    Layer::EdtRun,
];

impl Layer {
    /// The name of its table's file.
    fn table(self) -> &'static str {
        match self {
            Layer::EdtBase => "edt_base.rows",
            Layer::DtsLex => "dts_lex.rows",
            Layer::DtsParse => "dts_parse.rows",
            Layer::YamlProfile => "yaml_profile.rows",
            Layer::BindLoad => "bind_load.rows",
            Layer::BindMerge => "bind_merge.rows",
            Layer::PhaNexus => "pha_nexus.rows",
            Layer::IrqMap => "irq_map.rows",
            Layer::RegRanges => "reg_ranges.rows",
            Layer::PropTypes => "prop_types.rows",
            Layer::DepOrder => "dep_order.rows",
            Layer::CTokens => "c_tokens.rows",
            Layer::CMacro => "c_macro.rows",
            Layer::EdtRun => "edt_run.rows",
        }
    }

    /// The layer's answer to a row; none where the row doesn't ask for anything.
    fn answer(self, alloc: Global, row: &Row) -> Result<Option<String>, AllocError> {
        match self {
            Layer::EdtBase => objects::answer(alloc, row),
            Layer::DtsLex => source_tokens::answer(alloc, row),
            Layer::DtsParse => scripts::answer(alloc, row),
            Layer::YamlProfile => yaml_values::answer(alloc, row),
            Layer::BindLoad => records::answer(alloc, row),
            Layer::BindMerge => bindings::answer(alloc, row),
            Layer::PhaNexus => specifiers::answer(alloc, row),
            Layer::IrqMap => interrupts::answer(alloc, row),
            Layer::RegRanges => registers::answer(alloc, row),
            Layer::PropTypes => properties::answer(alloc, row),
            Layer::DepOrder => orders::answer(alloc, row),
            Layer::CTokens => c_lines::answer(alloc, row),
            Layer::CMacro => expansions::answer(alloc, row),
            Layer::EdtRun => runs::answer(alloc, row),
        }
    }
}

/// How many answers are right, and how many are wrong.
#[derive(Clone, Copy)]
struct Count {
    right: u64,
    wrong: u64,
}

fn main(rt: HostRuntime) -> ExitCode {
    match check_all(&rt) {
        Ok(0) => ExitCode::SUCCESS,
        _ => ExitCode::FAILURE,
    }
}

/// Checks all tables, and says how many rows are wrong.
fn check_all(rt: &HostRuntime) -> io::Result<u64> {
    let mut count = Count { right: 0, wrong: 0 };
    for layer in LAYERS {
        check_table(rt, layer, &mut count)?;
    }
    println!(rt; "rows: {} right, {} wrong", count.right, count.wrong)?;
    Ok(count.wrong)
}

/// Checks the rows of a layer, and prints a line for each one that is wrong.
fn check_table(rt: &HostRuntime, layer: Layer, count: &mut Count) -> io::Result<()> {
    let alloc = rt.alloc();
    let table = fs::read_to_string(rt, layer.table())?;
    for row in rows(alloc, table.as_str())? {
        let got = layer.answer(alloc, &row)?;
        if is_right(&row, &got) {
            count.right = count.right.saturating_add(1);
        } else {
            count.wrong = count.wrong.saturating_add(1);
            let got = match &got {
                Some(got) => got.as_str(),
                None => "no answer",
            };
            println!(rt; "{}:{}: {got:?}", layer.table(), row.line)?;
        }
    }
    Ok(())
}

/// Whether an answer is the one that its row wants.
fn is_right(row: &Row, got: &Option<String>) -> bool {
    let Some(got) = got else {
        return false;
    };
    if let Some(is) = row.text("is") {
        return row.is_formed && got.as_str() == is;
    }
    match (row.text("starts"), row.text("ends")) {
        (Some(start), Some(end)) => {
            row.is_formed && got.starts_with(start) && got.ends_with(end)
        }
        (Some(start), None) => row.is_formed && got.starts_with(start),
        _ => false,
    }
}
