// Loading a shape: its corners are stored at a number that has none yet. No place names that number, so nothing else changes.
// Every refusal is found before anything is written.
#![tactic(auto)]

ghost use Rattle.std.specs.Prelude.{◌≡◌, ◌+◌, ◌<◌, ◌≤◌, length, nat_abs, IfOk};
ghost use Rattle.std.proofs.lemmas.List.Edits.{sets};
ghost use Rattle.limits.specs.Limits;
ghost use Rattle.limits.specs.Refusals.{answer_number};
ghost use Rattle.pieces.specs.Pieces.{loaded_in};
ghost use Rattle.desk_state.specs.Lent.{of_shapes, SameShapes, with_shapes};
ghost use Rattle.desk.specs.Commands.{Loads};
ghost use Rattle.desk_load.specs.Loading.{LoadAsked, CornersAsked};

use desk_state::LentShapes;
use limits::Refusal;
use pieces::index::index_of;
use pieces_test::{is_loaded, sized_store};
use space::{in_reach, length_fits};

pub fn load(desk: &mut LentShapes<'_>, shape: i32, numbers: &[i32]) -> Result<u32, Refusal>
    ensures same { SameShapes desk.old desk.new }
    ensures loads { Loads (of_shapes desk.old) shape numbers.now (with_shapes desk.old desk.new) result }
{
    if !desk.in_order() {
        return Err(Refusal::Disorder);
    }
    let s = load_asked(desk.shapes, shape, numbers)?;
    // Stays: without this call the proof knows no length of an array that is lent behind the struct.
    sized_store(desk.shapes, desk.places);
    put_shape(desk.shapes, s, numbers);
    Ok(0)
}

// A shape that can be loaded with these corners: 2, 3, 4, 5.
fn load_asked(
    shapes: &[i32; limits::SHAPES_LENGTH],
    shape: i32,
    numbers: &[i32],
) -> Result<usize, Refusal>
    ensures asked { LoadAsked shapes.now shape numbers.now (answer_number result) }
    ensures index { IfOk result (λ s. s ≡ nat_abs shape) }
{
    let Some(s) = index_of(shape, limits::SHAPES) else {
        return Err(Refusal::ShapeNumber);
    };
    corners_asked(numbers)?;
    if is_loaded(shapes, s) {
        return Err(Refusal::ShapeLoaded);
    }
    Ok(s)
}

// What the corners alone are asked: 3, 4.
fn corners_asked(numbers: &[i32]) -> Result<(), Refusal>
    ensures { CornersAsked numbers.now (answer_number result) }
{
    if !length_fits(numbers.len()) {
        return Err(Refusal::ListLength);
    }
    if !in_reach(numbers, limits::SHAPE_REACH) {
        return Err(Refusal::CornerRange);
    }
    Ok(())
}

// A shape stored: how many corners it has, and then their numbers.
fn put_shape(shapes: &mut [i32; limits::SHAPES_LENGTH], s: usize, numbers: &[i32])
    requires { (s < Limits.shapes) × (length numbers.now ≤ Limits.shape_numbers) × (length shapes.old ≡ Limits.shapes_length) }
    ensures { shapes.new ≡ loaded_in shapes.old s numbers.now }
{
    let count = s * limits::SHAPE_CELLS;
    shapes[count] = (numbers.len() / 3) as i32;
    copy_numbers(shapes, count + 1, numbers);
}

// Numbers stored one after the other. Stays a loop: the library's copy needs `memmove`, which the archive for C asks nobody for.
fn copy_numbers(shapes: &mut [i32; limits::SHAPES_LENGTH], start: usize, numbers: &[i32])
    requires { (start + length numbers.now ≤ Limits.shapes_length) × (length shapes.old ≡ Limits.shapes_length) }
    ensures { shapes.new ≡ sets shapes.old start numbers.now }
{
    for i in 0..numbers.len() {
        shapes[start + i] = numbers[i];
    }
}
