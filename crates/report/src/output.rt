// From the bytes of a script to what is printed.
ghost use Rattle.std.specs.Prelude.{◌≡◌, IfOk, string_bytes};
ghost use Rattle.agreement.specs.Rounds.{rounds_of};
ghost use Rattle.script.specs.Refusals.{Answers};
ghost use Rattle.report.specs.Protection.{Protected};
ghost use Rattle.report.specs.Reports.{report_of};
ghost use Rattle.report.specs.Verdicts.{judgement};

use crate::crew::Crew;
use crate::verdict::judge_draft;
use script::{Draft, Fault};
use std::alloc::{AllocError, Global};

// The crew of an accepted script: it is protected under the script's rule.
pub fn judge(heap: Global, script: &[u8]) -> Result<Crew, Fault>
    ensures verdict { Answers result (λ c. c.processes) (judgement script.now) }
    ensures rounds { IfOk result (λ c. c.rounds ≡ rounds_of c.processes) }
    ensures protected { IfOk result (λ c. Protected script.now c.processes) }
{
    let draft = Draft::read(heap, script)?;
    Ok(judge_draft(&draft)?)
}

// All that is printed for a script: its crew, or its refusal.
pub fn report_of(heap: Global, script: &[u8]) -> Result<String, AllocError>
    ensures { IfOk result (λ t. string_bytes t ≡ report_of script.now) }
{
    match judge(heap, script) {
        Ok(crew) => format!(in heap; "{crew}\n"),
        Err(Fault::Refused(refusal)) => format!(in heap; "{refusal}\n"),
        Err(Fault::Memory) => Err(AllocError),
    }
}
