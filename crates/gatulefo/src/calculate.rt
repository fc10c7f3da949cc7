// The calculator (document 01, "The calculator (added)"; document 02, orders 1, 2 and 12): a run of a list of steps from a place under a limit. The registers
// are 32 words, two a register, low half first; beside each stands the number of the step that wrote it.
ghost use Rattle.std.specs.Prelude.{◌≡◌};
ghost use Rattle.calculator_rules.specs.Definition;
ghost use Rattle.calculator_state.specs.State.{vectors};
ghost use Rattle.link_station.specs.Calculate.{machine_told, step_numbers, left_by_step, run_numbers, left_by_run};

use link_station::calculation::{
    KindAndBits, RunAnswer, StepAnswer, kind_and_bits, run_answer, scalar_of,
};

// Performs an operation by its number: the step of 32 bytes, as the one at a place of a list, counted from 0. A step that is refused changes nothing.
#[unsafe(no_mangle)]
pub extern "C" fn gatulefo_step(
    registers: &mut [u64; 32],
    writers: &mut [u16; 16],
    scalar: KindAndBits,
    place: u8,
    step: &[u8],
) -> StepAnswer
    ensures { step_numbers (vectors registers.new) writers.new result ≡ left_by_step (machine_told registers.old writers.old scalar.kind scalar.bits) (Definition.step place (machine_told registers.old writers.old scalar.kind scalar.bits) step.now) }
{
    let held = scalar_of(scalar);
    match calculator_step::step(registers, writers, held, place, step) {
        Ok(left) => StepAnswer {
            scalar: kind_and_bits(left.scalar),
            refused: 0,
        },
        Err(refusal) => StepAnswer {
            scalar: kind_and_bits(held),
            refused: u8::from(refusal),
        },
    }
}

// Runs the list from a place, at most `limit` steps of it. The registers and the numbers beside them are left as the run leaves them.
#[unsafe(no_mangle)]
pub extern "C" fn gatulefo_run(
    registers: &mut [u64; 32],
    writers: &mut [u16; 16],
    scalar: KindAndBits,
    list: &[u8],
    place: usize,
    limit: usize,
) -> RunAnswer
    ensures { (vectors registers.new, writers.new, run_numbers result) ≡ left_by_run (Definition.run list.now place limit (machine_told registers.old writers.old scalar.kind scalar.bits)) }
{
    let stopped = calculator::run::run_words(
        registers,
        writers,
        scalar_of(scalar),
        list,
        place,
        limit,
    );
    run_answer(kind_and_bits(stopped.scalar), stopped.done, stopped.outcome)
}
