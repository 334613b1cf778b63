//! What a run says when it ends: a status and a line.

ghost use Rattle.std.specs.Prelude.{◌≡◌, IfOk, string_bytes};
ghost use Rattle.edt_run.specs.Answer.{fault_line, fault_status};

use crate::top::Status;
use edt_base::Fault;
use std::alloc::{AllocError, Global};

/// A status, and the line that the note gets.
#[derive(Drop)]
pub(crate) struct Refusal {
    pub(crate) status: Status,
    pub(crate) line: String,
}

/// The status and the line of a fault: status 1 for a broken rule, 6 for a limit.
pub(crate) fn refuse(alloc: Global, fault: &Fault) -> Result<Refusal, AllocError>
    ensures status { IfOk result (λ r. r.status ≡ fault_status fault.now) }
    ensures line { IfOk result (λ r. string_bytes r.line ≡ fault_line fault.now) }
{
    let status = if fault.rule.is_limit() {
        Status::Limit
    } else {
        Status::Rule
    };
    let line = format!(in alloc; "edt: {fault}\n")?;
    Ok(Refusal { status, line })
}
