//! Refusals of sizes and seeds from which no case is made.
ghost use Rattle.std.specs.Prelude.{◌≡◌, IfOk, Some};
ghost use Rattle.graph_cli.specs.Catalogue.{refusal_of};

use answers::Refusal;
use catalogue::{CatalogueFault, names};
use field_core::NoMemory;
use refusals::{case_refusal, seed_refusal, size_refusal};
use std::alloc::Global;

/// Returns the refusal that reports why no case of `size` hypotheses was made.
///
/// `NoMemory` if the fault is that, or if out of memory.
pub fn catalogue_refusal(
    alloc: Global,
    size: u64,
    fault: &CatalogueFault,
) -> Result<Refusal, NoMemory>
    ensures { IfOk result (λ refusal. refusal_of size fault.now ≡ Some refusal) }
{
    match fault {
        CatalogueFault::Size(n) => size_refusal(alloc, *n),
        CatalogueFault::Seed(n) => seed_refusal(alloc, *n),
        CatalogueFault::Case(fault) => {
            let names = names(alloc, size as usize)?;
            case_refusal(alloc, names.as_slice(), fault)
        }
        CatalogueFault::NoMemory => Err(NoMemory),
    }
}
