//! The words of `drill`.

ghost use Rattle.std.specs.Prelude.{IfNone, IfSome};
ghost use Rattle.drill_plan.specs.declared.plan.DrillPlan.{DrillPlan};
ghost use Rattle.syncrepl_tool.specs.DrillWords.{IsDrill, IsPlanOf};

use crate::numbers::number_of;
use drill_plan::DrillPlan;

/// The most writers, and the most consumers.
const MOST_THREADS: u64 = 8;

/// The most operations of a writer.
const MOST_OPERATIONS: u64 = 2_000;

/// The plan of a drill, where the words are `drill SEED WRITERS CONSUMERS SIZE`.
#[tactic(auto, using(crate::proofs::DrillForms::drill_words))]
pub(crate) fn drill_words(words: &[String]) -> Option<DrillPlan>
    ensures some { IfSome result (IsDrill words.now) }
    ensures none { IfNone result ((plan : DrillPlan) → IsDrill words.now plan → ⊥) }
{
    match words {
        [word, seed, writers, consumers, size] => {
            if word.as_str() != "drill" {
                return None;
            }
            plan_of(
                seed.as_str(),
                writers.as_str(),
                consumers.as_str(),
                size.as_str(),
            )
        }
        _ => None,
    }
}

/// The plan of the words after `drill`.
fn plan_of(seed: &str, writers: &str, consumers: &str, size: &str) -> Option<DrillPlan>
    ensures some { IfSome result (IsPlanOf seed.now writers.now consumers.now size.now) }
    ensures none { IfNone result ((plan : DrillPlan)
        → IsPlanOf seed.now writers.now consumers.now size.now plan → ⊥) }
{
    let Some(seed) = number_of(seed, 0, u64::MAX) else {
        return None;
    };
    let Some(writers) = number_of(writers, 1, MOST_THREADS) else {
        return None;
    };
    let Some(consumers) = number_of(consumers, 1, MOST_THREADS) else {
        return None;
    };
    let Some(size) = number_of(size, 1, MOST_OPERATIONS) else {
        return None;
    };
    Some(DrillPlan {
        seed,
        writers: writers as u32,
        consumers: consumers as u32,
        size: size as u32,
    })
}
