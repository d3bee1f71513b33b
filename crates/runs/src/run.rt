//! Runs of tasks.
ghost use Rattle.std.specs.Prelude.{◌≡◌};
ghost use Rattle.multiplier.specs.Calls.{Made};
ghost use Rattle.multiplier.specs.Runs.{AlikeRuns};
ghost use Rattle.runs.specs.Tasks.{LawfulRun, call, calls, cells_left, cells_of, words_left, words_of};

use crate::task::Task;
use common::stream::Stream;
use groups::device::GroupDevice;
use inputs::rule::SignRule;
use multiplier::multiply::multiply;

/// Carries out the tasks, one after another. Each is answered by what it asks alone, whatever came
/// before it. A refused one leaves the device and its own cells as they were; after any, its words
/// are zeros.
pub fn run<D: GroupDevice, R: SignRule>(device: &mut D, tasks: &mut [Task<D::Element, R>])
    ensures { LawfulRun R.SignRule.rule D.GroupDevice.group D.GroupDevice.tally device.old tasks.old device.new tasks.new }
{
    for task in tasks.iter_mut() {
        run_one(device, task);
    }
}

/// Carries out two lists of tasks, each on a device of its own, which may be of two groups.
pub fn run_both<D1: GroupDevice, R1: SignRule, D2: GroupDevice, R2: SignRule>(
    first: &mut D1,
    first_tasks: &mut [Task<D1::Element, R1>],
    second: &mut D2,
    second_tasks: &mut [Task<D2::Element, R2>],
)
    ensures first { LawfulRun R1.SignRule.rule D1.GroupDevice.group D1.GroupDevice.tally first.old first_tasks.old first.new first_tasks.new }
    ensures second { LawfulRun R2.SignRule.rule D2.GroupDevice.group D2.GroupDevice.tally second.old second_tasks.old second.new second_tasks.new }
    ensures alike { AlikeRuns (D1.GroupDevice.group first.old) (D2.GroupDevice.group second.old) (D1.GroupDevice.tally first.old) (calls R1.SignRule.rule first_tasks.new) (D1.GroupDevice.tally first.new) (D2.GroupDevice.tally second.old) (calls R2.SignRule.rule second_tasks.new) (D2.GroupDevice.tally second.new) }
{
    run_each(first, first_tasks, second, second_tasks);
}

// Both runs, each with its own law. Apart from `run_both`, whose clause of the two runs together
// the check did not close alone.
fn run_each<D1: GroupDevice, R1: SignRule, D2: GroupDevice, R2: SignRule>(
    first: &mut D1,
    first_tasks: &mut [Task<D1::Element, R1>],
    second: &mut D2,
    second_tasks: &mut [Task<D2::Element, R2>],
)
    ensures first { LawfulRun R1.SignRule.rule D1.GroupDevice.group D1.GroupDevice.tally first.old first_tasks.old first.new first_tasks.new }
    ensures second { LawfulRun R2.SignRule.rule D2.GroupDevice.group D2.GroupDevice.tally second.old second_tasks.old second.new second_tasks.new }
{
    run(first, first_tasks);
    run(second, second_tasks);
}

// Carries out one task. Its draws are read through a stream that ends with it, so the mark is all
// that is kept of it.
fn run_one<D: GroupDevice, R: SignRule>(device: &mut D, task: &mut Task<D::Element, R>)
    ensures made { Made D.GroupDevice.group D.GroupDevice.tally device.old (call R.SignRule.rule task.new) device.new }
    ensures ask { task.new.ask ≡ task.old.ask }
    ensures cells { cells_of task.new ≡ cells_left R.SignRule.rule (D.GroupDevice.group device.old) task.old }
    ensures words { words_of task.new ≡ words_left task.old }
{
    let mut draws = Stream::resume(task.ask.draws.as_slice(), task.ask.mark);
    let result = multiply(
        device,
        &task.ask.rule,
        task.ask.sizes,
        task.ask.key.as_slice(),
        task.ask.base,
        &mut draws,
        task.cells.as_mut_slice(),
        task.words.as_mut_slice(),
    );
    task.mark = draws.mark();
    task.outcome = Some(result);
}
