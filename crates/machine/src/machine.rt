// The machine: the card's run under way over a pack with its defect layer and a storage with its parity layer.
ghost use Rattle.runs.specs.SoFar.{Made};
ghost use Rattle.machine.specs.Makes.{run_world};

use crate::any_pack::AnyPack;
use crate::any_storage::AnyStorage;
pub use crate::not_fresh::NotFresh;
use drive::defect_layer::DefectLayer;
use runs::so_far::RunSoFar;
use storage::parity::Parity;

pub mod fresh;
pub mod layers;
pub mod packs;
pub mod running;
pub mod storages;

#[derive(Drop)]
pub struct Machine {
    run: RunSoFar<DefectLayer<AnyPack>, Parity<AnyStorage>>,
    // card, pack and storage are what the rules make of the calls so far, from the run's start
    ghost made: { ∥ Made run.card (run_world run) ∥₁ },
}
