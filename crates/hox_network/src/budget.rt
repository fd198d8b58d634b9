//! The default budget of a description.
ghost use Rattle.std.specs.Prelude.{◌≡◌, ℕ, List, IsUtf8, IfOk};
ghost use Rattle.toml.specs.View.{table_view};
ghost use Rattle.hox_network.specs.Budgets.{IsErrorOf, has_budget, says_budget, with_greatest_budget};

use kpn_model::version::greatest_budget_in;
use kpn_net::Sketch;
use std::alloc::{AllocError, Global};
use toml::Table;
use toml::de::Error;

/// Sets the budget to the greatest of the version if the text states none.
pub(crate) fn with_greatest_budget(
    alloc: Global,
    text: &[u8],
    sketch: Sketch,
) -> Result<Sketch, AllocError>
    requires { IsUtf8 text.now }
    ensures { IfOk result (λ r. r ≡ with_greatest_budget text.now sketch) }
{
    let says = match toml::table_from_slice(alloc, text) {
        Ok(table) => has_budget(&table),
        Err(error) => none_of(&error)?,
    };
    if says {
        return Ok(sketch);
    }
    let budget = i64::from(greatest_budget_in(sketch.version));
    Ok(Sketch { budget, ..sketch })
}

/// A text that is no TOML states no budget. Errors: out of memory.
fn none_of(error: &Error) -> Result<bool, AllocError>
    ensures { (text : List ℕ) → IsErrorOf error.now text → IsUtf8 text → IfOk result (λ says. says ≡ says_budget text) }
{
    if error.is_memory() {
        Err(AllocError)
    } else {
        Ok(false)
    }
}

fn has_budget(table: &Table) -> bool
    ensures { result ≡ has_budget (table_view table.now) }
{
    table.get("budget").is_some()
}
