//! The lines that settle a fetch.
ghost use Rattle.std.specs.Prelude.{◌≡◌, None, Some, not, IfOk, IfErr};
ghost use Rattle.serde_json.specs.View.{view};
ghost use Rattle.nb_lines.specs.declared.form.Form.TheVariants as form;
ghost use Rattle.nb_lines.specs.declared.form.Field.TheVariants as field;
ghost use Rattle.nb_lines.specs.Fields.{is_there};
ghost use Rattle.nb_lines.specs.Reasons.{bad_pair, target_reason, answer_reason, event_fault};
ghost use Rattle.nb_lines.specs.Says.{target_of, answer_of, event_of};
ghost use Rattle.nb_lines.specs.Reads.{Fails, FailsPlainly};

use crate::fields::{is_there, missing, text, value, whole, wrong};
use crate::form::Field;
use crate::script::OneFail;
use nb_log::{Event, Target};
use nb_value::{Answer, Text};
use serde_json::Value as Tree;
use std::alloc::Global;

/// A line that settles a fetch, by a ticket or a key, with a value or an error.
#[tactic(auto, unfolding(crate::specs::Reasons::event_fault, crate::specs::Says::event_of))]
pub fn settle(alloc: Global, tree: &Tree) -> Result<Event, OneFail>
    ensures good { IfOk result (λ e. event_fault form.Settle (view tree.now) ≡ None) }
    ensures said { IfOk result (λ e. event_of form.Settle (view tree.now) ≡ Some e) }
    ensures bad { IfErr result (Fails (event_fault form.Settle (view tree.now))) }
{
    let by_ticket = has_first(alloc, tree, Field::Ticket, Field::Key)?;
    let by_value = has_first(alloc, tree, Field::Value, Field::Error)?;
    let target = target(alloc, tree, by_ticket)?;
    let answer = answer(alloc, tree, by_value)?;
    Ok(Event::Settle { target, answer })
}

/// Whether a line has the first of two fields, where it has just one of them.
fn has_first(alloc: Global, tree: &Tree, first: Field, second: Field) -> Result<bool, OneFail>
    ensures right { IfOk result (λ b. bad_pair first second (view tree.now) ≡ None) }
    ensures first { IfOk result (λ b. is_there first (view tree.now) ≡ b) }
    ensures second { IfOk result (λ b. is_there second (view tree.now) ≡ not b) }
    ensures bad { IfErr result (FailsPlainly (bad_pair first second (view tree.now))) }
{
    match (is_there(tree, first), is_there(tree, second)) {
        (true, false) => Ok(true),
        (false, true) => Ok(false),
        (true, true) => Err(wrong(alloc, second)),
        (false, false) => Err(missing(alloc, first)),
    }
}

/// Which fetch is settled.
#[tactic(auto, using(crate::proofs::FieldLemmas::choices))]
fn target(alloc: Global, tree: &Tree, by_ticket: bool) -> Result<Target, OneFail>
    requires first { is_there field.Ticket (view tree.now) ≡ by_ticket }
    requires second { is_there field.Key (view tree.now) ≡ not by_ticket }
    ensures right { IfOk result (λ t. target_reason (view tree.now) ≡ None) }
    ensures said { IfOk result (λ t. target_of (view tree.now) ≡ Some t) }
    ensures bad { IfErr result (FailsPlainly (target_reason (view tree.now))) }
{
    if by_ticket {
        let ticket = whole(alloc, tree, Field::Ticket)?;
        Ok(Target::Ticket(u64::from(ticket)))
    } else {
        let key = text(alloc, tree, Field::Key)?;
        Ok(Target::Key(Text::from_str(alloc, key)?))
    }
}

/// With what it is settled.
#[tactic(auto, using(crate::proofs::FieldLemmas::choices))]
fn answer(alloc: Global, tree: &Tree, by_value: bool) -> Result<Answer, OneFail>
    requires first { is_there field.Value (view tree.now) ≡ by_value }
    requires second { is_there field.Error (view tree.now) ≡ not by_value }
    ensures right { IfOk result (λ a. answer_reason (view tree.now) ≡ None) }
    ensures said { IfOk result (λ a. answer_of (view tree.now) ≡ Some a) }
    ensures bad { IfErr result (FailsPlainly (answer_reason (view tree.now))) }
{
    if by_value {
        Ok(Answer::Value(value(alloc, tree, Field::Value)?))
    } else {
        let error = text(alloc, tree, Field::Error)?;
        Ok(Answer::Failure(Text::from_str(alloc, error)?))
    }
}
