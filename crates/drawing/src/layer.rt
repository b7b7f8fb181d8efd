ghost use Rattle.std.specs.Prelude.{◌≡◌, ◌<◌, IfOk, length, vec_len};
ghost use Rattle.std.specs.List.{slice_get};
ghost use Rattle.survey.specs.Sealing.{sealed_contents};
ghost use Rattle.drawing.specs.Layers.{KeepsLayers};

use std::alloc::{AllocError, Global};
use subject::rows::rows_of;
use survey::entry::WayEntry;
use survey::sealed::Sealed;

/// The layer of each place: over how many ways, in whichever direction, it is reached from the start.
///
/// The places that are not reached have the layer behind the last of the others. Fails only for want of memory.
pub fn layers_of(alloc: Global, survey: &Sealed, start: usize) -> Result<Vec<usize>, AllocError>
    ensures all { IfOk result (λ layers. vec_len layers ≡ length (sealed_contents survey.now).places) }
    ensures start { IfOk result (λ layers. start < vec_len layers → slice_get layers.items start ≡ Some 0) }
{
    let mut reached = rows_of(alloc, None, survey.places())?;
    enter(reached.as_mut_slice(), start, 0);
    let mut last = 0;
    for layer in 0..survey.places() {
        if spread(reached.as_mut_slice(), survey.all_ways(), layer) {
            last = layer + 1;
        }
    }
    let behind = last + 1;
    reached
        .iter()
        .map(|layer| layer.unwrap_or(behind))
        .collect(alloc)
}

// A place that has no layer has this one; whether it had none.
fn enter(reached: &mut [Option<usize>], place: usize, layer: usize) -> bool
    ensures kept { KeepsLayers reached.old reached.new }
    ensures entered { slice_get reached.old place ≡ Some None → slice_get reached.new place ≡ Some (Some layer) }
{
    if place < reached.len() && reached[place].is_none() {
        reached[place] = Some(layer);
        return true;
    }
    false
}

// The places without a layer that a way joins to one of this layer have the next layer; whether there are any.
fn spread(reached: &mut [Option<usize>], ways: &[WayEntry], layer: usize) -> bool
    ensures { KeepsLayers reached.old reached.new }
{
    let mut any = false;
    for way in ways {
        let from = way.from as usize;
        let to = way.to as usize;
        if is_in(reached, from, layer) && enter(reached, to, layer.saturating_add(1)) {
            any = true;
        }
        if is_in(reached, to, layer) && enter(reached, from, layer.saturating_add(1)) {
            any = true;
        }
    }
    any
}

// Whether a place has this layer.
fn is_in(reached: &[Option<usize>], place: usize, layer: usize) -> bool {
    reached.get(place).copied() == Some(Some(layer))
}
