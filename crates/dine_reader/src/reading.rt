//! A plan from its text.
ghost use Rattle.std.specs.Prelude.{◌≡◌, ◌≢◌, None, Some, OnOk, IfOk, IfErr};
ghost use Rattle.toml.specs.Data.{Members, table};
ghost use Rattle.toml.specs.Parse.{parse_document};
ghost use Rattle.toml.specs.View.{view};
ghost use Rattle.dine_reader.specs.PlanOf.{IsPlanOf, plan_of_document};
ghost use Rattle.dine_reader.specs.RefusalTests.{first_refusal, first_fault};

use crate::documents::items_at;
use crate::drafts::draft_in;
use crate::forms::{first_flaw, flaws_outside, has_other_version};
use dine_draft::PlanFault;
use dine_graph::Plan;
use std::alloc::Global;
use toml::Value;

// The most sites, and the most edges, of a text that is read. A plan has far fewer.
const MAX_TABLES: usize = u32::MAX as usize;

/// Reads a plan text, of version 1 or 2 of the format.
///
/// # Errors
///
/// Returns the first cause of `PlanFault` that holds of the text, at the least position. Returns `Memory`, for no other
/// cause, if an allocation fails or the text lists 2^32 sites or edges or more. A plan is returned only if no cause
/// holds.
pub fn read_plan(alloc: Global, text: &str) -> Result<Plan, PlanFault>
    ensures unrefused { OnOk result (first_fault text.now ≡ None) }
    ensures plan { IfOk result (IsPlanOf text.now) }
    ensures refused { IfErr result (λ f. f ≢ PlanFault.Memory → first_fault text.now ≡ Some f) }
{
    let document = read_document(alloc, text)?;
    read_tables(alloc, document)
}

// Reads the plan of a TOML document, as `read_plan` does of a text.
fn read_tables(alloc: Global, document: Value) -> Result<Plan, PlanFault>
    ensures unrefused { OnOk result (first_refusal (view document) ≡ None) }
    ensures plan { IfOk result (λ p. p ≡ plan_of_document (view document)) }
    ensures refused { IfErr result (λ f. f ≢ PlanFault.Memory → first_refusal (view document) ≡ Some f) }
{
    if has_other_version(&document) {
        return Err(PlanFault::Version);
    }
    // So each position fits the `u32` that a fault carries.
    if items_at(&document, "site").len() > MAX_TABLES
        || items_at(&document, "edge").len() > MAX_TABLES
    {
        return Err(PlanFault::Memory);
    }
    let outside = flaws_outside(&document);
    let (draft, inside) = draft_in(alloc, document)?;
    if let Some(fault) = first_flaw(outside, inside) {
        return Err(fault);
    }
    draft.finish(alloc)
}

// The text as data.
fn read_document(alloc: Global, text: &str) -> Result<Value, PlanFault>
    ensures ok { IfOk result (λ v. (doc : Members) × (parse_document text.now ≡ Some doc) × (view v ≡ table doc)) }
    ensures refused { IfErr result (λ f. f ≢ PlanFault.Memory
        → (f ≡ PlanFault.NotToml) × (parse_document text.now ≡ None)) }
{
    match toml::table_from_str(alloc, text) {
        Ok(document) => Ok(Value::Table(document)),
        Err(error) if error.is_memory() => Err(PlanFault::Memory),
        Err(_) => Err(PlanFault::NotToml),
    }
}
